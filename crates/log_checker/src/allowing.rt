//! Whether a line may say of its front what it says, apart from whom it cites.

ghost use Rattle.std.specs.Prelude.{◌≡◌, ◌↔◌, IsTrue, None};
ghost use Rattle.proof_log.specs.Report.{duration_of};
ghost use Rattle.precedence_tree.specs.Node.{StandsFor};
ghost use Rattle.log_truth.specs.Fates.{late_leaf, late_work, late_left, saying};
ghost use Rattle.log_truth.specs.Holds.{Reaches, IsLate, Allows};
ghost use Rattle.log_checker.specs.Said.{fate_said};

use crate::said::SaidFate;
use plan_bounds::{lower, tail_bound, work_bound};
use precedence_tree::{Node, is_leaf};
use project_net::Project;
use rcpsp_model::Verdict;

/// The duration of a verdict, if it has one.
pub fn duration(verdict: Verdict) -> Option<u32>
    ensures { result ≡ duration_of verdict }
{
    match verdict {
        Verdict::Optimal { duration } => Some(duration),
        Verdict::Infeasible => None,
        Verdict::Limit { duration, .. } => duration,
    }
}

/// Whether there is a duration, and the period is no less.
fn reaches(verdict: Verdict, period: u32) -> bool
    ensures { IsTrue result ↔ Reaches (duration_of verdict) period }
{
    match duration(verdict) {
        Some(duration) => duration <= period,
        None => false,
    }
}

/// Whether the front is a leaf that ends late enough.
fn is_late_leaf(project: &Project, verdict: Verdict, node: &Node) -> bool
    requires { StandsFor project.now node.now }
    ensures { IsTrue result ↔ IsLate project.now verdict node.now.front late_leaf }
{
    is_leaf(project, node) && reaches(verdict, node.end())
}

/// Whether the resource has a work bound that is late enough.
fn is_late_by_work(project: &Project, verdict: Verdict, node: &Node, resource: u32) -> bool
    requires { StandsFor project.now node.now }
    ensures { IsTrue result ↔ IsLate project.now verdict node.now.front (late_work resource) }
{
    if resource < 1 || u32::from(project.renewables()) < resource {
        return false;
    }
    match work_bound(project, node, resource as u8) {
        Some(bound) => reaches(verdict, bound),
        None => false,
    }
}

/// Whether the verdict is one at the limit, and the bound is below its duration if it has one.
fn is_open_at_limit(verdict: Verdict, bound: u32) -> bool
    ensures { IsTrue result ↔ Rattle.log_truth.specs.Holds.Suffices verdict (late_left bound) bound }
{
    match verdict {
        Verdict::Limit {
            duration: Some(duration),
            ..
        } => bound < duration,
        Verdict::Limit { duration: None, .. } => true,
        _ => false,
    }
}

/// Whether the front may be left with this lower bound.
fn may_be_left(project: &Project, verdict: Verdict, node: &Node, bound: u32) -> bool
    requires { StandsFor project.now node.now }
    ensures { IsTrue result ↔ IsLate project.now verdict node.now.front (late_left bound) }
{
    if !is_open_at_limit(verdict, bound) || is_leaf(project, node) {
        return false;
    }
    lower(project, node) == bound
}

/// Whether the front allows the fate, whomever it cites.
pub fn allows(project: &Project, verdict: Verdict, node: &Node, fate: SaidFate) -> bool
    requires { StandsFor project.now node.now }
    ensures { IsTrue result ↔ Allows project.now verdict node.now.front (saying (fate_said fate)) }
{
    match fate {
        SaidFate::Expanded => !is_leaf(project, node),
        SaidFate::Leaf => is_late_leaf(project, verdict, node),
        SaidFate::TailBound => reaches(verdict, tail_bound(project, node)),
        SaidFate::WorkBound(resource) => is_late_by_work(project, verdict, node, resource),
        SaidFate::Left(bound) => may_be_left(project, verdict, node, bound),
        SaidFate::Cutset(_) => true,
        SaidFate::Budget(_) | SaidFate::Capacity(_) | SaidFate::Worse(_) => false,
    }
}
