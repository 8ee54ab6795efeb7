ghost use Rattle.std.specs.Prelude.{◌≡◌, ◌≤◌, ◌↔◌, length, MatchBool};
ghost use Rattle.rcpsp_model.specs.Project.{job_count};
ghost use Rattle.window_refuter.specs.Windows.{AreWithin, NoneIsEmpty};
ghost use Rattle.window_refuter.specs.Steps.{IsJudged};

use crate::emptiness::{empty_window, is_empty};
use crate::least::is_job;
use crate::narrowing::{is_grounded, narrow};
use crate::step::{BoundStep, Judged};
use crate::window::Window;
use crate::works::is_overfull;
use project_net::Project;

/// Contradiction where it holds, else not allowed.
fn contradiction(holds: bool) -> Judged
    ensures { MatchBool holds (result ≡ Judged.Contradiction) (result ≡ Judged.NotAllowed) }
{
    if holds {
        Judged::Contradiction
    } else {
        Judged::NotAllowed
    }
}

/// Judges a step in windows none of which is empty, and takes it where it narrows one.
fn judge_where_none_is_empty(
    project: &Project,
    end: u32,
    windows: &mut [Window],
    step: BoundStep,
) -> Judged
    requires none_empty { NoneIsEmpty project.now windows.old }
    requires soon { end ≤ 1290000 }
    requires size { length windows.old ≡ job_count project.now }
    requires within { AreWithin end windows.old }
    ensures { IsJudged project.now (record { end = end; windows = windows.old }) step result (record { end = end; windows = windows.new }) }
{
    match step {
        BoundStep::Work(resource, from, until) => {
            contradiction(is_overfull(project, end, windows, resource, from, until))
        }
        BoundStep::Empty(_) => Judged::NotAllowed,
        _ => {
            if is_grounded(project, step) && narrow(project, windows, step) {
                Judged::Further
            } else {
                Judged::NotAllowed
            }
        }
    }
}

/// Judges a step in the windows, and takes it where it narrows one.
pub(crate) fn judge(project: &Project, end: u32, windows: &mut [Window], step: BoundStep) -> Judged
    requires soon { end ≤ 1290000 }
    requires size { length windows.old ≡ job_count project.now }
    requires within { AreWithin end windows.old }
    ensures judged { IsJudged project.now (record { end = end; windows = windows.old }) step result (record { end = end; windows = windows.new }) }
    ensures within { AreWithin end windows.new }
{
    project.known();
    match step {
        BoundStep::Empty(job) => {
            contradiction(is_job(project, job) && is_empty(project, windows, job))
        }
        _ => match empty_window(project, windows) {
            Some(_) => Judged::NotAllowed,
            None => judge_where_none_is_empty(project, end, windows, step),
        },
    }
}
