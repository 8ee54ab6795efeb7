ghost use Rattle.std.specs.Prelude.{◌≡◌, ℕ, ◌+◌, ◌-◌, ◌≤◌, ◌↔◌, ◌++◌, ◌∷◌, [], List, IsTrue, IfOk, MatchOption, slice_index};
ghost use Rattle.rcpsp_model.specs.Project.{IsJob, IsMode, IsNonrenewable, need, budget};
ghost use Rattle.rcpsp_model.specs.Chain.{IsLeast};
ghost use Rattle.rcpsp_model.specs.Tree.{IsFront, IsEligible, CanStart, Follows};
ghost use Rattle.precedence_tree.specs.Base.{IsBaseOf};
ghost use Rattle.precedence_tree.specs.Node.{StandsFor, StepsTo, IsNodeOf};

use crate::base::{Base, Expansion};
use crate::expanding::expand;
use crate::needs::Needs;
use crate::node::{Node, step};
use crate::starts::{earliest, ready};
use project_net::Project;
use rcpsp_model::Entry;
use sched_base::{Job, NoMemory};
use std::alloc::Global;

/// Whether the entry has an eligible job and one of its modes.
fn is_named(project: &Project, node: &Node, entry: Entry) -> bool
    requires { StandsFor project.now node.now }
    ensures { IsTrue result ↔ (IsEligible project.now node.now.front entry.job × IsMode project.now entry.job entry.mode) }
{
    if entry.job < 1 || project.jobs() < entry.job {
        return false;
    }
    let eligible = node.eligible(project);
    eligible.has(Job(entry.job)) && project.has_mode(entry.job, entry.mode)
}

/// Whether the job in the mode keeps each budget beside the jobs of which the needs are.
fn keeps_budgets(project: &Project, needs: &Needs, job: u8, mode: u8) -> bool
    requires job { IsJob project.now job }
    requires mode { IsMode project.now job mode }
    ensures { IsTrue result ↔ ((l : ℕ) → IsNonrenewable project.now l → slice_index needs.now.used (l - 1) + need project.now job mode l ≤ budget project.now l) }
{
    for resource in 1..project.nonrenewables() + 1 {
        let own = u64::from(project.need(job, mode, resource));
        let used = u64::from(needs.used[resource as usize - 1]);
        if u64::from(project.budget(resource)) < used + own {
            return false;
        }
    }
    true
}

/// Whether the entry starts as early as it can after an expanded front.
fn is_earliest(project: &Project, base: &Base, entry: Entry) -> bool
    requires base { IsBaseOf project.now base.now }
    requires job { IsJob project.now entry.job }
    requires mode { IsMode project.now entry.job entry.mode }
    ensures { IsTrue result ↔ IsLeast (CanStart project.now base.now.front entry.job entry.mode) entry.start }
{
    if project.lacking(entry.job, entry.mode).is_some() {
        return false;
    }
    let ready = ready(project, base, entry.job);
    earliest(project, base, entry.job, entry.mode, ready) == entry.start
}

/// The next node, where the entry may follow an expanded front.
fn follow_from(
    project: &Project,
    expansion: &Expansion,
    entry: Entry,
) -> Result<Option<Node>, NoMemory>
    requires base { IsBaseOf project.now expansion.now }
    requires eligible { IsEligible project.now expansion.now.front entry.job }
    requires mode { IsMode project.now entry.job entry.mode }
    ensures { IfOk result (λ o. MatchOption o (Follows project.now expansion.now.front entry → ⊥) (StepsTo project.now expansion.now.front entry)) }
{
    let base = expansion.base();
    if !keeps_budgets(project, &base.needs, entry.job, entry.mode) {
        return Ok(None);
    }
    if !is_earliest(project, base, entry) {
        return Ok(None);
    }
    let next = step(project, expansion, entry.job, entry.mode, entry.start)?;
    Ok(Some(next))
}

/// The node with the entry as its last one, where it may follow the node's front, whether or not a child has it.
pub fn follow(
    alloc: Global,
    project: &Project,
    node: &Node,
    entry: Entry,
) -> Result<Option<Node>, NoMemory>
    requires { StandsFor project.now node.now }
    ensures { IfOk result (λ o. MatchOption o (Follows project.now node.now.front entry → ⊥) (StepsTo project.now node.now.front entry)) }
{
    if !is_named(project, node, entry) {
        return Ok(None);
    }
    let expansion = expand(alloc, project, node)?;
    let next = follow_from(project, &expansion, entry)?;
    Ok(next)
}

/// The node of the entries, where they are a front of the project, whether or not a child has each of them.
pub fn node_of(
    alloc: Global,
    project: &Project,
    entries: &[Entry],
) -> Result<Option<Node>, NoMemory>
    ensures { IfOk result (λ o. MatchOption o (IsFront project.now entries.now → ⊥) (IsNodeOf project.now entries.now)) }
{
    let mut node = Node::root();
    for place in 0..entries.len() {
        match follow(alloc, project, &node, entries[place])? {
            Some(next) => node = next,
            None => return Ok(None),
        }
    }
    Ok(Some(node))
}
