ghost use Rattle.std.specs.Prelude.{◌≤◌, ◌↔◌, IsTrue, IfOk, IfSome, IfNone};
ghost use Rattle.std.specs.Bool.{OnTrue};
ghost use Rattle.window_refuter.specs.Steps.{Refutes};
ghost use Rattle.window_refuter.specs.Candidates.{AreNarrowingSteps};
ghost use Rattle.window_refuter.specs.Refuted.{NoneRefutes};
ghost use Rattle.window_refuter.specs.Laws.{NoneEndsBy};

use crate::candidates::narrowing_steps;
use crate::step::{BoundStep, Judged};
use crate::windows::Windows;
use project_net::Project;
use sched_base::{List, NoMemory};
use std::alloc::Global;

/// Whether the steps show that no feasible schedule ends by a period, 0 to 1,290,000: each is allowed in the windows that
/// those before it leave, the last one is a contradiction, and no other is. It takes no memory.
pub fn refutes(project: &Project, end: u32, steps: &[BoundStep]) -> bool
    requires { end ≤ 1290000 }
    ensures exact { IsTrue result ↔ Refutes project.now end steps.now }
    ensures sound { OnTrue result (NoneEndsBy project.now end) }
{
    project.known();
    let mut windows = Windows::new(project, end);
    for (place, step) in steps.iter().enumerate() {
        match windows.take(project, *step) {
            Judged::NotAllowed => return false,
            Judged::Contradiction => return place + 1 == steps.len(),
            Judged::Further => (),
        }
    }
    false
}

/// Steps that show that no feasible schedule ends by a period, 0 to 1,290,000, or `None` where no steps do.
///
/// # Errors
///
/// [`NoMemory`] where memory was refused.
pub fn refute(
    alloc: Global,
    project: &Project,
    end: u32,
) -> Result<Option<List<BoundStep>>, NoMemory>
    requires { end ≤ 1290000 }
    ensures some { IfOk result (λ o. IfSome o (Refutes project.now end)) }
    ensures none { IfOk result (λ o. IfNone o (NoneRefutes project.now end)) }
{
    let narrowing = narrowing_steps(alloc, project)?;
    refute_by(alloc, project, end, narrowing.as_slice())
}

/// The same by the narrowing steps of the project.
pub(crate) fn refute_by(
    alloc: Global,
    project: &Project,
    end: u32,
    narrowing: &[BoundStep],
) -> Result<Option<List<BoundStep>>, NoMemory>
    requires soon { end ≤ 1290000 }
    requires narrowing { AreNarrowingSteps project.now narrowing.now }
    ensures some { IfOk result (λ o. IfSome o (Refutes project.now end)) }
    ensures none { IfOk result (λ o. IfNone o (NoneRefutes project.now end)) }
{
    Windows::new(project, end).refute(alloc, project, narrowing)
}
