ghost use Rattle.std.specs.Prelude.{◌≤◌};
ghost use Rattle.rcpsp_model.specs.Bounds.{IsLowerBound};
ghost use Rattle.precedence_tree.specs.Node.{StandsFor};

use crate::tails::tail_bound_of;
use crate::work::work_bound_of;
use precedence_tree::Node;
use project_net::Project;

/// The greatest of the tail bound and all work bounds of a node.
pub fn lower_of(project: &Project, node: &Node) -> u32
    requires { StandsFor project.now node.now }
    ensures value { IsLowerBound project.now node.now.front result }
    ensures limit { result ≤ 999999999 }
{
    let mut lower = tail_bound_of(project, node);
    for resource in 1..project.renewables() + 1 {
        let work = work_bound_of(project, node, resource);
        lower = lower.max(work.unwrap_or(0));
    }
    lower
}
