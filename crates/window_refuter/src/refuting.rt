ghost use Rattle.std.specs.Prelude.{◌≡◌, ◌≤◌, length, IfOk, IfSome, IfNone};
ghost use Rattle.rcpsp_model.specs.Project.{job_count};
ghost use Rattle.window_refuter.specs.Windows.{AreWithin};
ghost use Rattle.window_refuter.specs.Steps.{RefutesFrom};
ghost use Rattle.window_refuter.specs.Candidates.{AreNarrowingSteps};
ghost use Rattle.window_refuter.specs.Refuted.{NoneRefutesFrom};

use crate::interval::overfull;
use crate::propagation::propagate;
use crate::step::BoundStep;
use crate::window::Window;
use project_net::Project;
use sched_base::{List, NoMemory};
use std::alloc::Global;

/// Steps that refute the windows, or `None` where no steps do; the windows are narrowed as far as steps narrow them.
pub(crate) fn refute_windows(
    alloc: Global,
    project: &Project,
    end: u32,
    windows: &mut [Window],
    tried: &[BoundStep],
) -> Result<Option<List<BoundStep>>, NoMemory>
    requires tried { AreNarrowingSteps project.now tried.now }
    requires soon { end ≤ 1290000 }
    requires size { length windows.old ≡ job_count project.now }
    requires within { AreWithin end windows.old }
    ensures some { IfOk result (λ o. IfSome o (RefutesFrom project.now end windows.old)) }
    ensures none { IfOk result (λ o. IfNone o (NoneRefutesFrom project.now end windows.old)) }
{
    project.known();
    let mut steps = Vec::new(alloc);
    match propagate(project, end, windows, &mut steps, tried)? {
        Some(job) => {
            steps.push(BoundStep::Empty(job))?;
            return Ok(Some(List::from_vec(steps)));
        }
        None => (),
    }
    match overfull(alloc, project, end, windows)? {
        Some(step) => {
            steps.push(step)?;
            Ok(Some(List::from_vec(steps)))
        }
        None => Ok(None),
    }
}
