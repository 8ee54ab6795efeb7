//! The placings of a plan, job by job.

ghost use Rattle.std.specs.Prelude.{◌≡◌, ◌≤◌};
ghost use Rattle.rcpsp_model.specs.Project.{IsJob, IsMode};
ghost use Rattle.rcpsp_model.specs.Schedule.{end_of, entries};
ghost use Rattle.project_net.specs.Feasible.{IsPlaced, entry_in};
ghost use Rattle.justify_plans.specs.Placings.{finish_in, moved};

use project_net::Project;
use rcpsp_model::{Entry, Placing};

/// The entry of a job.
pub fn entry_of(project: &Project, places: &[Placing], job: u8) -> Entry
    requires job { IsJob project.now job }
    requires placed { IsPlaced project.now places.now }
    ensures entry { result ≡ entry_in places.now job }
    ensures mode { IsMode project.now job result.mode }
    ensures start { result.start ≤ 999999999 }
{
    let _ = project;
    let place = places[job as usize - 1];
    Entry {
        job,
        mode: place.mode,
        start: place.start,
    }
}

/// The finish of a job.
pub fn finish_of(project: &Project, places: &[Placing], job: u8) -> u32
    requires job { IsJob project.now job }
    requires placed { IsPlaced project.now places.now }
    ensures value { result ≡ finish_in project.now places.now job }
    ensures limit { result ≤ 1000009999 }
{
    let entry = entry_of(project, places, job);
    entry.start + project.duration(job, entry.mode)
}

/// The greatest finish of all jobs.
pub fn plan_end(project: &Project, places: &[Placing]) -> u32
    requires placed { IsPlaced project.now places.now }
    ensures value { result ≡ end_of project.now (entries places.now) }
    ensures limit { result ≤ 1000009999 }
{
    let mut end = 0;
    for done in 0..project.jobs() {
        end = end.max(finish_of(project, places, done + 1));
    }
    end
}

/// Gives a job another start.
pub fn set_start(project: &Project, places: &mut [Placing], job: u8, start: u32)
    requires job { IsJob project.now job }
    requires placed { IsPlaced project.now places.old }
    ensures { places.new ≡ moved places.old job start }
{
    let entry = entry_of(project, places, job);
    places[job as usize - 1] = Placing {
        mode: entry.mode,
        start,
    };
}
