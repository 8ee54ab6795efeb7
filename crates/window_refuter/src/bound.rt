ghost use Rattle.std.specs.Prelude.{◌≤◌, IfOk};
ghost use Rattle.rcpsp_model.specs.Claim.{NoneEndsBefore};
ghost use Rattle.window_refuter.specs.Refuted.{ShowsBound, IsWindowBound};

use crate::candidates::narrowing_steps;
use crate::horizon::horizon;
use crate::refutation::refute_by;
use crate::step::BoundStep;
use project_net::Project;
use sched_base::{List, NoMemory};
use std::alloc::Global;

/// A lower bound on the ends of all feasible schedules, with the steps that show it.
#[derive(Drop)]
pub struct WindowBound {
    /// The bound, 0 to 1,290,001: no feasible schedule ends before it.
    pub bound: u32,
    /// Where the bound is above 0, steps that refute the period before it; else none.
    pub steps: List<BoundStep>,
}

/// The least end, up to the sum of the greatest durations and the end of the calendar, that no steps refute, or one more
/// where steps refute all of these.
///
/// # Errors
///
/// [`NoMemory`] where memory was refused.
pub fn window_bound(alloc: Global, project: &Project) -> Result<WindowBound, NoMemory>
    ensures bound { IfOk result (λ w. IsWindowBound project.now w.bound) }
    ensures steps { IfOk result (λ w. ShowsBound project.now w.bound w.steps) }
    ensures limit { IfOk result (λ w. w.bound ≤ 1290001) }
    ensures sound { IfOk result (λ w. NoneEndsBefore project.now w.bound) }
{
    project.known();
    let narrowing = narrowing_steps(alloc, project)?;
    let mut steps = List::new(alloc);
    let mut low = 0;
    let mut high = horizon(project) + 1;
    while low < high {
        let end = low + (high - low) / 2;
        match refute_by(alloc, project, end, narrowing.as_slice())? {
            Some(found) => {
                steps = found;
                low = end + 1;
            }
            None => high = end,
        }
    }
    Ok(WindowBound { bound: low, steps })
}
