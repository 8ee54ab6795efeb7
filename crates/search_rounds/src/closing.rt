// Closing what is left at the end.
ghost use Rattle.std.specs.Prelude.{◌≡◌, ℕ, ◌<◌, ◌≤◌, ◌↔◌, All, IfOk, IfSome, IfNone, IsTrue, IsSomeAnd};
ghost use Rattle.std.specs.List.{AllZip};
ghost use Rattle.rcpsp_model.specs.Schedule.{end_of};
ghost use Rattle.rcpsp_model.specs.Tree.{IsLeaf};
ghost use Rattle.rcpsp_model.specs.Bounds.{IsLowerBound};
ghost use Rattle.rcpsp_model.specs.Claim.{HasDuration};
ghost use Rattle.log_truth.specs.Holds.{Reaches};
ghost use Rattle.precedence_tree.specs.Node.{StandsFor};
ghost use Rattle.search_log.specs.declared.row.RowFate.TheVariants.{Leaf};
ghost use Rattle.search_log.specs.Lean.{end_number};
ghost use Rattle.search_rounds.specs.Closing.{EndsBefore, IsBetter, IsLowered, IsLateFate, IsCloseOf};

use crate::best::{Best, number_of};
use crate::round::WaitingNode;
use plan_bounds::{lower, tail_bound, work_bound};
use precedence_tree::{Node, is_leaf, schedule};
use project_net::Project;
use sched_base::NoMemory;
use search_log::{Fill, Origin, RowFate};
use std::alloc::Global;

// Whether the node is a leaf that ends before the best.
fn ends_before(project: &Project, node: &Node, best: Option<u32>) -> bool
    requires { StandsFor project.now node.now }
    ensures { IsTrue result ↔ EndsBefore project.now node.now.front best }
{
    is_leaf(project, node) && node.end() < number_of(best)
}

// The node's schedule, where it is a leaf that ends before the best, or the best.
fn better(alloc: Global, project: &Project, node: &Node, best: Best) -> Result<Best, NoMemory>
    requires node { StandsFor project.now node.now }
    requires best { HasDuration project.now best.end best.plan }
    requires soon { IfSome best.end (λ end. end ≤ 1290000) }
    ensures better { IfOk result (IsBetter project.now node.now.front best) }
    ensures plan { IfOk result (λ b. HasDuration project.now b.end b.plan) }
    ensures soon { IfOk result (λ b. IfSome b.end (λ end. end ≤ 1290000)) }
{
    project.known();
    if !ends_before(project, node, best.end) {
        return Ok(best);
    }
    let plan = schedule(alloc, project, node)?;
    Ok(Best {
        end: Some(node.end()),
        plan: Some(plan),
    })
}

/// The best, lowered by the leaves among the nodes: of two leaves that end at once, by the first.
pub fn lowered(
    alloc: Global,
    project: &Project,
    left: &[WaitingNode],
    best: Best,
) -> Result<Best, NoMemory>
    requires nodes { All (λ w. StandsFor project.now w.node) left.now }
    requires best { HasDuration project.now best.end best.plan }
    requires soon { IfSome best.end (λ end. end ≤ 1290000) }
    ensures least { IfOk result (λ b. IsLowered project.now left.now best.end b.end) }
    ensures plan { IfOk result (λ b. HasDuration project.now b.end b.plan) }
    ensures soon { IfOk result (λ b. IfSome b.end (λ end. end ≤ 1290000)) }
{
    let mut least = best;
    for waiting in left {
        let next = better(alloc, project, &waiting.node, least)?;
        least = next;
    }
    Ok(least)
}

fn reaches(bound: Option<u32>, end: u32) -> bool
    ensures { IsTrue result ↔ IsSomeAnd bound (λ w. end ≤ w) }
{
    match bound {
        Some(bound) => end <= bound,
        None => false,
    }
}

// The first bound of a node that reaches the best, if one does.
fn late_bound(project: &Project, node: &Node, end: u32) -> Option<RowFate>
    requires { StandsFor project.now node.now }
    ensures late { IfSome result (IsLateFate project.now (Some end) node.now.front) }
    ensures none { IfNone result ((b : ℕ) → IsLowerBound project.now node.now.front b → b < end) }
{
    if end <= tail_bound(project, node) {
        return Some(RowFate::TailBound);
    }
    for resource in 1..project.renewables() + 1 {
        let work = work_bound(project, node, resource);
        if reaches(work, end) {
            return Some(RowFate::WorkBound(resource));
        }
    }
    None
}

// A node that no bound closes is left with its lower bound.
fn left_open(project: &Project, node: &Node, best: Option<u32>) -> RowFate
    requires node { StandsFor project.now node.now }
    requires inner { IsLeaf project.now node.now.front → ⊥ }
    requires below { (b : ℕ) → IsLowerBound project.now node.now.front b → IfSome best (λ end. b < end) }
    ensures { IsLateFate project.now best node.now.front result }
{
    let bound = lower(project, node);
    RowFate::Left(bound)
}

// What becomes of a node that is left and isn't a leaf.
fn fate_of_inner(project: &Project, node: &Node, best: Option<u32>) -> RowFate
    requires node { StandsFor project.now node.now }
    requires inner { IsLeaf project.now node.now.front → ⊥ }
    ensures { IsLateFate project.now best node.now.front result }
{
    match best {
        Some(end) => match late_bound(project, node, end) {
            Some(fate) => fate,
            None => left_open(project, node, Some(end)),
        },
        None => left_open(project, node, None),
    }
}

// What becomes of a node that is left.
fn fate_of_left(project: &Project, node: &Node, best: Option<u32>) -> RowFate
    requires node { StandsFor project.now node.now }
    requires leaf { IsLeaf project.now node.now.front → Reaches best (end_of project.now node.now.front) }
    ensures late { IsLateFate project.now best node.now.front result }
    ensures leaf { IsLeaf project.now node.now.front → result ≡ Leaf }
{
    if is_leaf(project, node) {
        RowFate::Leaf
    } else {
        fate_of_inner(project, node, best)
    }
}

/// What becomes of the nodes that are left, after the last round, which comes before the one of this number.
pub fn closes(
    alloc: Global,
    project: &Project,
    left: &[WaitingNode],
    best: Option<u32>,
    number: u32,
) -> Result<Vec<Fill>, NoMemory>
    requires nodes { All (λ w. StandsFor project.now w.node) left.now }
    requires leaves { All (λ w. IsLeaf project.now w.node.front → Reaches best (end_of project.now w.node.front)) left.now }
    ensures { IfOk result (λ fills. AllZip (IsCloseOf project.now best number) left.now fills.items) }
{
    let mut fills = Vec::with_capacity(alloc, left.len())?;
    for waiting in left {
        let fate = fate_of_left(project, &waiting.node, best);
        fills.push(Fill {
            place: waiting.place,
            fate,
            origin: Origin {
                round: number,
                worker: 0,
                turn: 0,
            },
        })?;
    }
    Ok(fills)
}
