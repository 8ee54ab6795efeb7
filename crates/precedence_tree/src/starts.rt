ghost use Rattle.std.specs.Prelude.{◌≡◌, ℕ, ◌<◌, ◌≤◌, ◌↔◌};
ghost use Rattle.rcpsp_model.specs.Project.{IsJob, IsMode, duration};
ghost use Rattle.rcpsp_model.specs.Chain.{IsLeast};
ghost use Rattle.rcpsp_model.specs.Modes.{IsExecutable};
ghost use Rattle.rcpsp_model.specs.Tree.{last_start, CanStart};
ghost use Rattle.rcpsp_model.specs.Bounds.{ready as ready_of};
ghost use Rattle.precedence_tree.specs.Starts.{HasRoomAt};
ghost use Rattle.precedence_tree.specs.Base.{IsBaseOf};

use crate::active::{free_from, latest};
use crate::base::Base;
use crate::breaks::next_try;
use project_net::Project;
use rcpsp_model::Entry;

/// The start of the entry that was placed last, 0 where there is none.
pub fn last_of(entries: &[Entry]) -> u32
    ensures { result ≡ last_start entries.now }
{
    if entries.is_empty() {
        0
    } else {
        entries[entries.len() - 1].start
    }
}

/// When a job is ready: the greatest of the last start and the finishes of its placed predecessors, of which the active ones
/// tell. It is the same in each of its modes.
pub fn ready(project: &Project, base: &Base, job: u8) -> u32
    requires base { IsBaseOf project.now base.now }
    requires job { IsJob project.now job }
    ensures { result ≡ ready_of project.now base.now.front job }
{
    project.known();
    let last = last_of(base.front.as_slice());
    latest(base.active.as_slice(), project.preds(job), last)
}

/// The least start of a job in a mode that takes time and can run, were all capacities whole, by when the job is ready.
///
/// From the last start on the active jobs take less and less: on each resource there is one period from which on the job
/// fits beside them.
fn earliest_by_capacities(project: &Project, base: &Base, job: u8, mode: u8, ready: u32) -> u32
    requires base { IsBaseOf project.now base.now }
    requires job { IsJob project.now job }
    requires mode { IsMode project.now job mode }
    requires ready { ready ≡ ready_of project.now base.now.front job }
    requires time { 0 < duration project.now job mode }
    requires executable { IsExecutable project.now job mode }
    ensures { (t : ℕ) → (result ≤ t) ↔ ((ready_of project.now base.now.front job ≤ t) × HasRoomAt project.now base.now.active job mode t) }
{
    let mut start = ready;
    for resource in 1..project.renewables() + 1 {
        let room = project.capacity(resource) - project.request(job, mode, resource);
        let free = free_from(project, base.active.as_slice(), resource, room);
        start = start.max(free);
    }
    start
}

/// The least start of a job in a mode that can run, by when the job is ready.
pub fn earliest(project: &Project, base: &Base, job: u8, mode: u8, ready: u32) -> u32
    requires base { IsBaseOf project.now base.now }
    requires job { IsJob project.now job }
    requires mode { IsMode project.now job mode }
    requires ready { ready ≡ ready_of project.now base.now.front job }
    requires executable { IsExecutable project.now job mode }
    ensures { IsLeast (CanStart project.now base.now.front job mode) result }
{
    if project.duration(job, mode) == 0 {
        return ready;
    }
    let mut start = earliest_by_capacities(project, base, job, mode, ready);
    while start < project.calm() {
        match next_try(project, base, job, mode, start) {
            Some(next) => start = next,
            None => return start,
        }
    }
    start
}
