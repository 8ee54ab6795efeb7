ghost use Rattle.std.specs.Prelude.{◌≡◌, ℕ, ◌≤◌, ◌↔◌, IsTrue, List, length};
ghost use Rattle.rcpsp_model.specs.declared.parts.Placing.{Placing};
ghost use Rattle.rcpsp_model.specs.Project.{nonrenewables};
ghost use Rattle.rcpsp_model.specs.Tree.{has_job, Completes};
ghost use Rattle.rcpsp_model.specs.Dominance.{Dominates};
ghost use Rattle.rcpsp_model.specs.Laws.{Replaces};
ghost use Rattle.precedence_tree.specs.Base.{IsBaseOf};
ghost use Rattle.precedence_tree.specs.Node.{StandsFor};
ghost use Rattle.cutset_store.specs.Parts.{NeedsNoMore, AreComparable, Beats};

use crate::facts::{NodeFacts, RecordFacts, facts_of_node, facts_of_record};
use crate::finishes::holds_up_none;
use crate::orderly::are_orderly;
use crate::record::CutRecord;
use crate::usage::takes_no_more;
use precedence_tree::Node;
use project_net::Project;
use rcpsp_model::dominance;

/// Whether the needs are no more than the others.
fn needs_no_more(project: &Project, used: &[u32], other: &[u32]) -> bool
    requires used { nonrenewables project.now ≤ length used.now }
    requires other { nonrenewables project.now ≤ length other.now }
    ensures { IsTrue result ↔ NeedsNoMore project.now used.now other.now }
{
    for resource in 1..project.nonrenewables() + 1 {
        let place = resource as usize - 1;
        if other[place] < used[place] {
            return false;
        }
    }
    true
}

/// Whether a record dominates a node of the same jobs: the numbers are compared first, then the finishes and the usages of
/// the active jobs.
pub fn beats(project: &Project, a: &RecordFacts<'_>, b: &NodeFacts<'_>) -> bool
    requires { AreComparable project.now a.now b.now }
    ensures { IsTrue result ↔ Beats project.now a.now b.now }
{
    project.known();
    if b.last < a.last {
        return false;
    }
    if b.end < a.end {
        return false;
    }
    if !needs_no_more(project, a.used, &b.used) {
        return false;
    }
    holds_up_none(project, a.active, b.newest, b.older, b.last)
        && takes_no_more(project, a.active, b.newest, b.older, b.last)
}

/// Whether the record has the jobs of the node.
fn has_its_jobs(project: &Project, a: &CutRecord, b: &Node) -> bool
    requires { StandsFor project.now b.now }
    ensures { IsBaseOf project.now a.now → IsTrue result ↔ ((j : ℕ) → has_job a.now.front j ≡ has_job b.now.front j) }
{
    let _of_any = project;
    a.base().placed == b.placed()
}

/// Whether the record's front dominates that of the node, where the record is one of the project, which needn't be known.
///
/// What costs least is compared first: the sets, the last starts and the ends, then needs, finishes and usages.
pub fn would_dominate(project: &Project, a: &CutRecord, b: &Node) -> bool
    requires { StandsFor project.now b.now }
    ensures { IsBaseOf project.now a.now → IsTrue result ↔ Dominates project.now a.now.front b.now.front }
{
    project.known();
    if !has_its_jobs(project, a, b) {
        return false;
    }
    let record = facts_of_record(project, a);
    if !are_orderly(project, record.active) {
        return false;
    }
    let node = facts_of_node(project, b);
    beats(project, &record, &node)
}

/// Whether the record's front dominates that of the node (after Demeulemeester and Herroelen 1992).
pub fn dominates(project: &Project, a: &CutRecord, b: &Node) -> bool
    requires record { IsBaseOf project.now a.now }
    requires node { StandsFor project.now b.now }
    ensures value { IsTrue result ↔ Dominates project.now a.now.front b.now.front }

    // What completes the node can be replaced, at no later end, by what completes the record's front.
    ensures replaces { IsTrue result → (s : List Placing) → Completes project.now b.now.front s → Replaces project.now a.now.front s }
{
    project.known();
    dominance();
    would_dominate(project, a, b)
}
