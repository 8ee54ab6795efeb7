ghost use Rattle.std.specs.Prelude.{◌≡◌, ℕ, ◌<◌, ◌≤◌, IfSome, IfNone, MatchBool};
ghost use Rattle.rcpsp_model.specs.Project.{IsRenewable};
ghost use Rattle.rcpsp_model.specs.Chain.{IsLeast};
ghost use Rattle.rcpsp_model.specs.Bounds.{IsWorkBound, LowerValue};
ghost use Rattle.precedence_tree.specs.Node.{StandsFor};
ghost use Rattle.tree_worker.specs.Reasons.{Reaches, IsBoundBy};

use crate::answer::Close;
use plan_bounds::{tail_bound, work_bound};
use precedence_tree::Node;
use project_net::Project;

/// Whether the work bound of a renewable resource is no less than the best.
fn is_reached(project: &Project, node: &Node, resource: u8, best: u64) -> bool
    requires node { StandsFor project.now node.now }
    requires resource { IsRenewable project.now resource }
    ensures { MatchBool result (Reaches (IsWorkBound project.now node.now.front resource) best) ((w : ℕ) → IsWorkBound project.now node.now.front resource w → w < best) }
{
    match work_bound(project, node, resource) {
        Some(bound) => u64::from(bound) >= best,
        None => false,
    }
}

/// The lowest renewable resource whose work bound is no less than the best, if there is one.
fn reaching_resource(project: &Project, node: &Node, best: u64) -> Option<u8>
    requires { StandsFor project.now node.now }
    ensures some { IfSome result (IsLeast (λ k. Reaches (IsWorkBound project.now node.now.front k) best)) }
    ensures none { IfNone result ((k w : ℕ) → IsWorkBound project.now node.now.front k w → w < best) }
{
    project.known();
    for resource in 1..project.renewables() + 1 {
        if is_reached(project, node, resource, best) {
            return Some(resource);
        }
    }
    None
}

/// The first of a node's bounds that is no less than the best: the tail bound, or else the lowest work bound.
///
/// No other function of this crate knows which bounds there are.
pub fn closing_bound(project: &Project, node: &Node, best: u64) -> Option<Close>
    requires { StandsFor project.now node.now }
    ensures some { IfSome result (IsBoundBy project.now node.now.front best) }
    ensures none { IfNone result ((n : ℕ) → LowerValue project.now node.now.front n → n < best) }
{
    if u64::from(tail_bound(project, node)) >= best {
        return Some(Close::TailBound);
    }
    match reaching_resource(project, node, best) {
        Some(resource) => Some(Close::WorkBound(resource)),
        None => None,
    }
}
