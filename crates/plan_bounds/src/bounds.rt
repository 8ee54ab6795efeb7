ghost use Rattle.std.specs.Prelude.{◌≡◌, ◌≤◌, ◌↔◌, List, [], ◌∷◌, ◌++◌, IsNone, IfSome, IfNone};
ghost use Rattle.rcpsp_model.specs.declared.parts.Entry.{Entry as Placed};
ghost use Rattle.rcpsp_model.specs.declared.parts.Placing.{Placing};
ghost use Rattle.rcpsp_model.specs.Project.{IsRenewable, capacity};
ghost use Rattle.rcpsp_model.specs.Schedule.{end_of, entries};
ghost use Rattle.rcpsp_model.specs.Tree.{Completes, LeavesBudgets, IsPlacedChild};
ghost use Rattle.rcpsp_model.specs.Bounds.{IsTailBound, IsWorkBound, IsLowerBound, IsBudgetGap};
ghost use Rattle.precedence_tree.specs.Node.{StandsFor};

use crate::gap::gap_of;
use crate::greatest::lower_of;
use crate::tails::tail_bound_of;
use crate::work::work_bound_of;
use precedence_tree::Node;
use project_net::Project;

/// The tail bound of a node: the greatest of its end and, over each chain of unplaced jobs, the first start that its
/// first job can have plus the chain's least durations; at most 2,570,000 periods.
pub fn tail_bound(project: &Project, node: &Node) -> u32
    requires { StandsFor project.now node.now }
    ensures value { IsTailBound project.now node.now.front result }
    ensures limit { result ≤ 2570000 }

    // What completes the node ends at the bound or later.
    ensures bound { (s : List Placing) → Completes project.now node.now.front s → result ≤ end_of project.now (entries s) }
{
    project.known();
    tail_bound_of(project, node)
}

/// The work bound of a renewable resource at a node: the first period by which the resource, from the last start on, has
/// held the work that is left, at most 999,999,999; `None` exactly where the capacity is 0.
pub fn work_bound(project: &Project, node: &Node, resource: u8) -> Option<u32>
    requires node { StandsFor project.now node.now }
    requires resource { IsRenewable project.now resource }
    ensures some { IfSome result (IsWorkBound project.now node.now.front resource) }
    ensures none { IsNone result ↔ (capacity project.now resource ≡ 0) }
    ensures limit { IfSome result (λ w. w ≤ 999999999) }

    // What completes the node ends at the bound or later.
    ensures bound { IfSome result (λ w. (s : List Placing) → Completes project.now node.now.front s → w ≤ end_of project.now (entries s)) }
{
    work_bound_of(project, node, resource)
}

/// The greatest of the tail bound and all work bounds of a node, at most 999,999,999.
pub fn lower(project: &Project, node: &Node) -> u32
    requires { StandsFor project.now node.now }
    ensures value { IsLowerBound project.now node.now.front result }
    ensures limit { result ≤ 999999999 }

    // What completes the node ends at the bound or later.
    ensures bound { (s : List Placing) → Completes project.now node.now.front s → result ≤ end_of project.now (entries s) }
{
    project.known();
    lower_of(project, node)
}

/// The lowest nonrenewable resource of which the node's jobs and the others at their least need more than the budget.
pub fn budget_gap(project: &Project, node: &Node) -> Option<u8>
    requires { StandsFor project.now node.now }
    ensures gap { IfSome result (IsBudgetGap project.now node.now.front) }
    ensures none { IfNone result (LeavesBudgets project.now node.now.front) }

    // Nothing completes a node that has a gap, and a placed child has none.
    ensures infeasible { IfSome result (λ _. (s : List Placing) → Completes project.now node.now.front s → ⊥) }
    ensures placed { (F : List Placed) (e : Placed) → node.now.front ≡ F ++ e ∷ [] → IsPlacedChild project.now F e → IsNone result }
{
    gap_of(project, node)
}
