//! The project of a seed.

ghost use Rattle.std.specs.Prelude.{◌≡◌, ◌≤◌, IfOk};
ghost use Rattle.project_gen.specs.Made.{made};

use crate::drafting::draft_of;
use project_net::{BuildRefusal, Project};
use rand_pcg::Lcg64Xsh32;
use sched_base::NoMemory;
use std::alloc::Global;

/// The stream of the generator, one for all seeds.
const STREAM: u64 = 54;

/// The project of a seed, the same wherever it is made: 3 to 128 jobs, of which each but the first and the last has so many
/// modes, 1 to 4, over two renewable resources, and over two nonrenewable ones where there are several modes.
///
/// # Errors
///
/// [`NoMemory`] where memory was refused.
pub fn make(alloc: Global, seed: u64, jobs: u8, modes: u8) -> Result<Project, NoMemory>
    requires some { 3 ≤ jobs }
    requires few { jobs ≤ 128 }
    requires some_mode { 1 ≤ modes }
    requires few_modes { modes ≤ 4 }
    ensures { IfOk result (λ project. project ≡ made seed jobs modes) }
{
    let mut rng = Lcg64Xsh32::new(seed, STREAM);
    let draft = draft_of(alloc, &mut rng, jobs, modes)?;
    match Project::build(alloc, draft) {
        Ok(project) => Ok(project),
        // A draft without a fault is refused for want of memory alone.
        Err(refusal) => match refusal {
            BuildRefusal::NoMemory => Err(NoMemory),
            _ => unreachable!(),
        },
    }
}
