ghost use Rattle.std.specs.Prelude.{◌≡◌, ◌≤◌, ◌∷◌, [], length, All, IfOk, IfSome, IfNone, OnOk};
ghost use Rattle.rcpsp_model.specs.Project.{IsJob, job_count};
ghost use Rattle.window_refuter.specs.Windows.{AreWithin, IsEmptyWindow, NoneIsEmpty};
ghost use Rattle.window_refuter.specs.Narrowing.{IsGrounded, Narrows};
ghost use Rattle.window_refuter.specs.Propagation.{IsNarrowed, IsTightened, IsAtRest, IsChecked};

use crate::emptiness::{empty_window, is_empty};
use crate::narrowing::narrow;
use crate::step::BoundStep;
use crate::window::Window;
use project_net::Project;
use sched_base::NoMemory;

/// What became of the windows.
#[derive(Clone, Copy, Debug, PartialEq, Eq)]
pub(crate) enum Tightened {
    /// No window was narrowed.
    Unchanged,
    /// A window was narrowed, and none is empty.
    Changed,
    /// The window of this job is empty.
    Emptied(u8),
}

/// Whether the windows that a step narrows are empty, which no window was before it.
fn check(project: &Project, windows: &[Window], step: BoundStep) -> Tightened
    requires grounded { IsGrounded project.now step }
    requires size { length windows.now ≡ job_count project.now }
    requires starts { All (λ w. w.earliest_start ≤ 1290000) windows.now }
    ensures { IsChecked project.now step windows.now result }
{
    project.known();
    match step {
        BoundStep::Head(_, job) | BoundStep::Tail(job, _) => {
            if is_empty(project, windows, job) {
                Tightened::Emptied(job)
            } else {
                Tightened::Changed
            }
        }
        BoundStep::Disjoint(first, second, _) => {
            if is_empty(project, windows, first) {
                Tightened::Emptied(first)
            } else if is_empty(project, windows, second) {
                Tightened::Emptied(second)
            } else {
                Tightened::Changed
            }
        }
        BoundStep::Work(_, _, _) | BoundStep::Empty(_) => Tightened::Unchanged,
    }
}

/// Takes a step where it narrows a window, and appends it.
fn tighten(
    project: &Project,
    end: u32,
    windows: &mut [Window],
    steps: &mut Vec<BoundStep>,
    step: BoundStep,
) -> Result<Tightened, NoMemory>
    requires grounded { IsGrounded project.now step }
    requires soon { end ≤ 1290000 }
    requires size { length windows.old ≡ job_count project.now }
    requires within { AreWithin end windows.old }
    requires none_empty { NoneIsEmpty project.now windows.old }
    ensures within { OnOk result (AreWithin end windows.new) }
    ensures narrowed { OnOk result (IsNarrowed project.now end windows.old steps.old.items windows.new steps.new.items) }
    ensures tightened { IfOk result (λ t. IsTightened project.now (step ∷ []) windows.old t windows.new) }
{
    project.known();
    if !narrow(project, windows, step) {
        return Ok(Tightened::Unchanged);
    }
    steps.push(step)?;
    Ok(check(project, windows, step))
}

/// Tries each of the steps once.
fn pass(
    project: &Project,
    end: u32,
    windows: &mut [Window],
    steps: &mut Vec<BoundStep>,
    tried: &[BoundStep],
) -> Result<Tightened, NoMemory>
    requires grounded { All (IsGrounded project.now) tried.now }
    requires soon { end ≤ 1290000 }
    requires size { length windows.old ≡ job_count project.now }
    requires within { AreWithin end windows.old }
    requires none_empty { NoneIsEmpty project.now windows.old }
    ensures within { OnOk result (AreWithin end windows.new) }
    ensures narrowed { OnOk result (IsNarrowed project.now end windows.old steps.old.items windows.new steps.new.items) }
    ensures tightened { IfOk result (λ t. IsTightened project.now tried.now windows.old t windows.new) }
{
    let mut so_far = Tightened::Unchanged;
    for step in tried {
        match tighten(project, end, windows, steps, *step)? {
            Tightened::Unchanged => (),
            Tightened::Changed => so_far = Tightened::Changed,
            Tightened::Emptied(job) => return Ok(Tightened::Emptied(job)),
        }
    }
    Ok(so_far)
}

/// Tries the steps until none of them narrows a window, and gives a job whose window became empty.
pub(crate) fn propagate(
    project: &Project,
    end: u32,
    windows: &mut [Window],
    steps: &mut Vec<BoundStep>,
    tried: &[BoundStep],
) -> Result<Option<u8>, NoMemory>
    requires grounded { All (IsGrounded project.now) tried.now }
    requires soon { end ≤ 1290000 }
    requires size { length windows.old ≡ job_count project.now }
    requires within { AreWithin end windows.old }
    ensures within { OnOk result (AreWithin end windows.new) }
    ensures narrowed { OnOk result (IsNarrowed project.now end windows.old steps.old.items windows.new steps.new.items) }
    ensures some { IfOk result (λ o. IfSome o (λ j. IsJob project.now j × IsEmptyWindow project.now windows.new j)) }
    ensures none { IfOk result (λ o. IfNone o (IsAtRest project.now tried.now windows.new)) }
{
    if let Some(job) = empty_window(project, windows) {
        return Ok(Some(job));
    }
    loop {
        match pass(project, end, windows, steps, tried)? {
            Tightened::Unchanged => return Ok(None),
            Tightened::Changed => (),
            Tightened::Emptied(job) => return Ok(Some(job)),
        }
    }
}
