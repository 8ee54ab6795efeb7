//! The placings of a plan in hand, job by job.

ghost use Rattle.std.specs.Prelude.{◌≤◌};
ghost use Rattle.rcpsp_model.specs.Project.{IsJob, IsMode};
ghost use Rattle.project_net.specs.Feasible.{IsPlaced};

use project_net::Project;
use rcpsp_model::Placing;

/// The placing of a job.
pub fn place_of(project: &Project, places: &[Placing], job: u8) -> Placing
    requires job { IsJob project.now job }
    requires placed { IsPlaced project.now places.now }
    ensures mode { IsMode project.now job result.mode }
    ensures start { result.start ≤ 999999999 }
{
    let _ = project;
    places[job as usize - 1]
}

/// The finish of a job.
pub fn finish_of(project: &Project, places: &[Placing], job: u8) -> u32
    requires job { IsJob project.now job }
    requires placed { IsPlaced project.now places.now }
    ensures { result ≤ 1000009999 }
{
    let place = place_of(project, places, job);
    place.start + project.duration(job, place.mode)
}

/// The greatest finish of all jobs.
pub fn plan_end(project: &Project, places: &[Placing]) -> u32
    requires { IsPlaced project.now places.now }
{
    let mut end = 0;
    for done in 0..project.jobs() {
        end = end.max(finish_of(project, places, done + 1));
    }
    end
}

/// Gives a job another placing.
pub fn put(project: &Project, places: &mut [Placing], job: u8, place: Placing)
    requires job { IsJob project.now job }
    requires mode { IsMode project.now job place.mode }
    requires start { place.start ≤ 999999999 }
    requires placed { IsPlaced project.now places.old }
    ensures { IsPlaced project.now places.new }
{
    let _ = project;
    places[job as usize - 1] = place;
}

/// Gives a job another mode.
pub fn set_mode(project: &Project, places: &mut [Placing], job: u8, mode: u8)
    requires job { IsJob project.now job }
    requires mode { IsMode project.now job mode }
    requires placed { IsPlaced project.now places.old }
    ensures { IsPlaced project.now places.new }
{
    let start = place_of(project, places, job).start;
    put(project, places, job, Placing { mode, start });
}
