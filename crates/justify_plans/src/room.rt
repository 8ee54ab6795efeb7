//! What the other jobs leave of the resources in a period.

ghost use Rattle.std.specs.Prelude.{◌≡◌, ◌↔◌, ◌≤◌, ◌==◌, ◌∷◌, [], if◌then◌else◌, IsTrue};
ghost use Rattle.rcpsp_model.specs.Project.{IsJob, IsRenewable};
ghost use Rattle.rcpsp_model.specs.Schedule.{usage};
ghost use Rattle.project_net.specs.Feasible.{IsPlaced, entry_in};
ghost use Rattle.justify_plans.specs.Placings.{mode_in, others};
ghost use Rattle.justify_plans.specs.Room.{HasRoomAt};

use crate::places::entry_of;
use project_net::Project;
use rcpsp_model::Placing;

/// What a job takes of a renewable resource in a period, 0 to 1,000,000.
fn load_of(project: &Project, places: &[Placing], job: u8, resource: u8, period: u32) -> u32
    requires job { IsJob project.now job }
    requires placed { IsPlaced project.now places.now }
    requires resource { IsRenewable project.now resource }
    ensures value { result ≡ usage project.now (entry_in places.now job ∷ []) resource period }
    ensures limit { result ≤ 1000000 }
{
    let entry = entry_of(project, places, job);
    let finish = entry.start + project.duration(job, entry.mode);
    if period < entry.start || finish <= period {
        return 0;
    }
    project.request(job, entry.mode, resource)
}

/// What a job takes where it isn't the one that is left out, for which it is 0.
fn load_beside(
    project: &Project,
    places: &[Placing],
    left_out: u8,
    job: u8,
    resource: u8,
    period: u32,
) -> u32
    requires job { IsJob project.now job }
    requires placed { IsPlaced project.now places.now }
    requires resource { IsRenewable project.now resource }
    ensures value { result ≡ (if job == left_out then 0 else usage project.now (entry_in places.now job ∷ []) resource period) }
    ensures limit { result ≤ 1000000 }
{
    if job == left_out {
        return 0;
    }
    load_of(project, places, job, resource, period)
}

/// What the other jobs take of a renewable resource in a period, 0 to 128,000,000.
fn usage_beside(project: &Project, places: &[Placing], job: u8, resource: u8, period: u32) -> u32
    requires placed { IsPlaced project.now places.now }
    requires resource { IsRenewable project.now resource }
    ensures value { result ≡ usage project.now (others places.now job) resource period }
    ensures limit { result ≤ 128000000 }
{
    let mut usage = 0;
    for done in 0..project.jobs() {
        usage += load_beside(project, places, job, done + 1, resource, period);
    }
    usage
}

/// Whether each renewable resource has room for a job in a period beside the other jobs.
pub fn has_room(project: &Project, places: &[Placing], job: u8, period: u32) -> bool
    requires job { IsJob project.now job }
    requires placed { IsPlaced project.now places.now }
    ensures { IsTrue result ↔ HasRoomAt project.now (others places.now job) job (mode_in places.now job) period }
{
    let mode = entry_of(project, places, job).mode;
    for done in 0..project.renewables() {
        let usage = usage_beside(project, places, job, done + 1, period);
        let request = project.request(job, mode, done + 1);
        if project.capacity_at(done + 1, period) < usage + request {
            return false;
        }
    }
    true
}
