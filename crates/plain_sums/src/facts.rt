//! What a project says of a number, 0 where there is no such job, mode or resource; and the least over all modes of a job.

ghost use Rattle.std.specs.Prelude.{◌↔◌, IsTrue};
ghost use Rattle.rcpsp_model.specs.Project.{IsJob, IsMode};

use project_net::Project;
use sched_base::Job;

/// Whether this is a job.
fn is_job(project: &Project, job: u8) -> bool
    ensures { IsTrue result ↔ IsJob project.now job }
{
    1 <= job && job <= project.jobs()
}

/// Whether this is a job, and one of its modes.
fn is_mode(project: &Project, job: u8, mode: u8) -> bool
    ensures { IsTrue result ↔ (IsJob project.now job × IsMode project.now job mode) }
{
    if !is_job(project, job) {
        return false;
    }
    project.has_mode(job, mode)
}

/// How many modes the job has.
pub fn modes(project: &Project, job: u8) -> u8 {
    if !is_job(project, job) {
        return 0;
    }
    project.modes(job)
}

/// The periods of the job in the mode.
pub fn duration(project: &Project, job: u8, mode: u8) -> u32 {
    if !is_mode(project, job, mode) {
        return 0;
    }
    project.duration(job, mode)
}

/// What the job in the mode asks of a renewable resource in each of its periods.
pub fn request(project: &Project, job: u8, mode: u8, resource: u8) -> u64 {
    if !is_mode(project, job, mode) || resource < 1 || project.renewables() < resource {
        return 0;
    }
    u64::from(project.request(job, mode, resource))
}

/// What the job in the mode needs of a nonrenewable resource.
pub fn need(project: &Project, job: u8, mode: u8, resource: u8) -> u64 {
    if !is_mode(project, job, mode) || resource < 1 || project.nonrenewables() < resource {
        return 0;
    }
    u64::from(project.need(job, mode, resource))
}

/// What there is of a renewable resource in a period without a row in the calendar.
pub fn capacity(project: &Project, resource: u8) -> u64 {
    if resource < 1 || project.renewables() < resource {
        return 0;
    }
    u64::from(project.capacity(resource))
}

/// What there is of a nonrenewable resource.
pub fn budget(project: &Project, resource: u8) -> u64 {
    if resource < 1 || project.nonrenewables() < resource {
        return 0;
    }
    u64::from(project.budget(resource))
}

/// What there is of a renewable resource in a period: its capacity, or what a row of the calendar says.
pub fn capacity_in(project: &Project, resource: u8, period: u32) -> u64 {
    let mut least = capacity(project, resource);
    for place in 0..project.cal_rows() {
        let row = project.cal_row(place);
        if row.resource == resource && row.begin <= period && period < row.until {
            least = least.min(u64::from(row.capacity));
        }
    }
    least
}

/// The first period after all rows of the calendar.
pub fn after_calendar(project: &Project) -> u32 {
    let mut after = 0u32;
    for place in 0..project.cal_rows() {
        after = after.max(project.cal_row(place).until);
    }
    after
}

/// Whether the second job is a direct successor of the first.
pub fn is_before(project: &Project, first: u8, second: u8) -> bool {
    project.known();
    if !is_job(project, first) || !is_job(project, second) {
        return false;
    }
    project.succs(first).has(Job(second))
}

/// The least duration of the job.
pub fn least_duration(project: &Project, job: u8) -> u64 {
    let mut least = u64::from(duration(project, job, 1));
    for done in 0..modes(project, job) {
        least = least.min(u64::from(duration(project, job, done + 1)));
    }
    least
}

/// The least that the job needs of a nonrenewable resource.
pub fn least_need(project: &Project, job: u8, resource: u8) -> u64 {
    let mut least = need(project, job, 1, resource);
    for done in 0..modes(project, job) {
        least = least.min(need(project, job, done + 1, resource));
    }
    least
}

/// The work of the job in the mode on a renewable resource.
fn work(project: &Project, job: u8, mode: u8, resource: u8) -> u64 {
    let periods = u64::from(duration(project, job, mode));
    periods.saturating_mul(request(project, job, mode, resource))
}

/// The least work of the job on a renewable resource.
pub fn least_work(project: &Project, job: u8, resource: u8) -> u64 {
    let mut least = work(project, job, 1, resource);
    for done in 0..modes(project, job) {
        least = least.min(work(project, job, done + 1, resource));
    }
    least
}
