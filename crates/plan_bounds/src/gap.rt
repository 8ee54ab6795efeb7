ghost use Rattle.std.specs.Prelude.{◌≡◌, ◌+◌, IfSome, IfNone};
ghost use Rattle.rcpsp_model.specs.Project.{IsNonrenewable};
ghost use Rattle.rcpsp_model.specs.Schedule.{used};
ghost use Rattle.rcpsp_model.specs.Tree.{rest_need, LeavesBudgets};
ghost use Rattle.rcpsp_model.specs.Bounds.{IsBudgetGap};
ghost use Rattle.precedence_tree.specs.Node.{StandsFor};

use precedence_tree::Node;
use project_net::Project;

/// What the placed jobs and the others at their least need of the resource.
fn needed(project: &Project, node: &Node, resource: u8) -> u64
    requires node { StandsFor project.now node.now }
    requires resource { IsNonrenewable project.now resource }
    ensures { result ≡ used project.now node.now.front resource + rest_need project.now node.now.front resource }
{
    project.known();
    u64::from(node.used(project, resource)) + u64::from(node.rest_need(project, resource))
}

/// The budget gap of a node.
pub fn gap_of(project: &Project, node: &Node) -> Option<u8>
    requires { StandsFor project.now node.now }
    ensures gap { IfSome result (IsBudgetGap project.now node.now.front) }
    ensures none { IfNone result (LeavesBudgets project.now node.now.front) }
{
    for resource in 1..project.nonrenewables() + 1 {
        if u64::from(project.budget(resource)) < needed(project, node, resource) {
            return Some(resource);
        }
    }
    None
}
