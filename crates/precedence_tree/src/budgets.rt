ghost use Rattle.std.specs.Prelude.{◌≡◌, ℕ, IfSome, IfNone};
ghost use Rattle.rcpsp_model.specs.Project.{IsJob, IsMode};
ghost use Rattle.rcpsp_model.specs.Chain.{IsLeast};
ghost use Rattle.precedence_tree.specs.Needs.{Exceeds};

use crate::needs::Needs;
use project_net::Project;

/// The lowest nonrenewable resource of which the job in the mode leaves too little, by the needs before it.
pub fn gap_with(project: &Project, needs: &Needs, job: u8, mode: u8) -> Option<u8>
    requires job { IsJob project.now job }
    requires mode { IsMode project.now job mode }
    ensures some { IfSome result (IsLeast (Exceeds project.now needs.now job mode)) }
    ensures none { IfNone result ((l : ℕ) → Exceeds project.now needs.now job mode l → ⊥) }
{
    for resource in 1..project.nonrenewables() + 1 {
        let place = resource as usize - 1;
        let there = u64::from(project.budget(resource))
            + u64::from(project.least_need(job, resource));
        let own = u64::from(project.need(job, mode, resource));
        let wanted = u64::from(needs.used[place]) + own + u64::from(needs.rest[place]);
        if there < wanted {
            return Some(resource);
        }
    }
    None
}
