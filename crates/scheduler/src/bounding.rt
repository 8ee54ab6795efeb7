//! The window bound of a project.

ghost use Rattle.std.specs.Prelude.{IfOk};
ghost use Rattle.scheduler.specs.Bounding.{IsBoundText};

use bound_checker::{accepted_bound, bound_text};
use project_net::Project;
use sched_base::NoMemory;
use std::alloc::Global;
use window_refuter::window_bound;

/// The text of the window bound of a project.
pub fn bound_text_of(alloc: Global, project: &Project) -> Result<Vec<u8>, NoMemory>
    ensures { IfOk result (λ text. IsBoundText project.now text.items) }
{
    accepted_bound();
    let found = window_bound(alloc, project)?;
    bound_text(alloc, &found)
}
