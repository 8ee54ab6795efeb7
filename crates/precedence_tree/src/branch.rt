ghost use Rattle.std.specs.Prelude.{◌≡◌, ℕ, ◌≤◌, ◌↔◌, true, length, All, IsOk, IfOk, OnOk};
ghost use Rattle.sched_base.specs.JobSet.{member};
ghost use Rattle.rcpsp_model.specs.declared.parts.Child.TheVariants.{Placed};
ghost use Rattle.rcpsp_model.specs.declared.parts.Shut.{Shut as Why};
ghost use Rattle.rcpsp_model.specs.Project.{IsMode};
ghost use Rattle.rcpsp_model.specs.Tree.{IsEligible, IsShut, IsChild, choices, choices_of, AreChildrenBy, AreChildren};
ghost use Rattle.rcpsp_model.specs.Bounds.{ready as ready_of};
ghost use Rattle.rcpsp_model.specs.Laws.{Exchanges};
ghost use Rattle.precedence_tree.specs.Base.{IsBaseOf};
ghost use Rattle.precedence_tree.specs.Node.{StandsFor};
ghost use Rattle.precedence_tree.specs.Children.{Appends, child_front, child_fronts, StandsWherePlaced, IsOpen};

use crate::base::Expansion;
use crate::causes::cause_to_shut;
use crate::expanding::expand;
use crate::node::{Node, step};
use crate::starts::{earliest, ready};
use project_net::Project;
use rcpsp_model::Child;
use sched_base::{JobSet, List, NoMemory};
use std::alloc::Global;

/// The children of a node, in order.
pub type Children = List<Child<Node>>;

/// The eligible jobs: those that aren't placed, and whose predecessors are.
pub fn eligible(project: &Project, node: &Node) -> JobSet
    requires { StandsFor project.now node.now }
    ensures { (j : ℕ) → 1 ≤ j → (member result j ≡ true) ↔ IsEligible project.now node.now.front j }
{
    node.eligible(project)
}

/// The child by an eligible job in a mode that isn't shut, by when the job is ready: it takes no memory of its own.
fn placed_child(
    project: &Project,
    expansion: &Expansion,
    job: u8,
    mode: u8,
    ready: u32,
) -> Result<Node, NoMemory>
    requires base { IsBaseOf project.now expansion.now }
    requires eligible { IsEligible project.now expansion.now.front job }
    requires mode { IsMode project.now job mode }
    requires open { IsOpen project.now expansion.now.front job mode }
    requires ready { ready ≡ ready_of project.now expansion.now.front job }
    ensures child { IfOk result (λ n. IsChild project.now expansion.now.front job mode (Placed n.front)) }
    ensures stands { IfOk result (StandsFor project.now) }
{
    let start = earliest(project, expansion.base(), job, mode, ready);
    let next = step(project, expansion, job, mode, start)?;
    Ok(next)
}

/// The child of an expanded front by an eligible job in one of its modes, by when the job is ready.
fn child_by(
    project: &Project,
    expansion: &Expansion,
    job: u8,
    mode: u8,
    ready: u32,
) -> Result<Child<Node>, NoMemory>
    requires base { IsBaseOf project.now expansion.now }
    requires eligible { IsEligible project.now expansion.now.front job }
    requires mode { IsMode project.now job mode }
    requires ready { ready ≡ ready_of project.now expansion.now.front job }
    ensures child { IfOk result (λ c. IsChild project.now expansion.now.front job mode (child_front c)) }
    ensures stands { IfOk result (StandsWherePlaced project.now) }
    ensures shut { (why : Why) → IsShut project.now expansion.now.front job mode why → IsOk result }
{
    if let Some(why) = cause_to_shut(project, &expansion.base().needs, job, mode) {
        return Ok(Child::Shut { job, mode, why });
    }
    let next = placed_child(project, expansion, job, mode, ready)?;
    Ok(Child::Placed(next))
}

/// The child of an expanded front by an eligible job in one of its modes; one that is shut takes no memory.
pub fn child_of(
    project: &Project,
    expansion: &Expansion,
    job: u8,
    mode: u8,
) -> Result<Child<Node>, NoMemory>
    requires base { IsBaseOf project.now expansion.now }
    requires eligible { IsEligible project.now expansion.now.front job }
    requires mode { IsMode project.now job mode }
    ensures child { IfOk result (λ c. IsChild project.now expansion.now.front job mode (child_front c)) }
    ensures stands { IfOk result (StandsWherePlaced project.now) }
    ensures shut { (why : Why) → IsShut project.now expansion.now.front job mode why → IsOk result }
{
    let ready = ready(project, expansion.base(), job);
    child_by(project, expansion, job, mode, ready)
}

/// Appends the children by the modes of an eligible job.
fn push_by_mode(
    project: &Project,
    expansion: &Expansion,
    job: u8,
    all: &mut Vec<Child<Node>>,
) -> Result<(), NoMemory>
    requires base { IsBaseOf project.now expansion.now }
    requires eligible { IsEligible project.now expansion.now.front job }
    requires stand { All (StandsWherePlaced project.now) all.old.items }
    ensures children { OnOk result (Appends (AreChildrenBy project.now expansion.now.front (choices_of project.now job)) (child_fronts all.old.items) (child_fronts all.new.items)) }
    ensures stand { OnOk result (All (StandsWherePlaced project.now) all.new.items) }
{
    let ready = ready(project, expansion.base(), job);
    for done in 0..project.modes(job) {
        let next = child_by(project, expansion, job, done + 1, ready)?;
        all.push(next)?;
    }
    Ok(())
}

/// How many children an expanded front has: one for each mode of each eligible job.
fn count_of_children(project: &Project, expansion: &Expansion) -> usize
    requires { IsBaseOf project.now expansion.now }
    ensures { result ≡ length (choices project.now expansion.now.front) }
{
    project.known();
    let jobs = expansion.base().eligible;
    let mut count = 0;
    let mut above = 0;
    while let Some(job) = jobs.next_after(above) {
        count += project.modes(job.0) as usize;
        above = job.0;
    }
    count
}

/// The children of an expanded front: by ascending job, and then by ascending mode.
pub fn children_of(
    alloc: Global,
    project: &Project,
    expansion: &Expansion,
) -> Result<Children, NoMemory>
    requires { IsBaseOf project.now expansion.now }
    ensures children { IfOk result (λ cs. AreChildren project.now expansion.now.front (child_fronts cs)) }
    ensures stand { IfOk result (All (StandsWherePlaced project.now)) }

    // What completes the front can be exchanged, at no later end, for what completes one of the placed children.
    ensures exchange { IfOk result (λ cs. Exchanges project.now expansion.now.front (child_fronts cs)) }
{
    project.known();
    let jobs = expansion.base().eligible;
    let count = count_of_children(project, expansion);
    let mut all = Vec::with_capacity(alloc, count)?;
    let mut last = 0;
    while let Some(job) = jobs.next_after(last) {
        push_by_mode(project, expansion, job.0, &mut all)?;
        last = job.0;
    }
    Ok(List::from_vec(all))
}

/// The child of the node by an eligible job in one of its modes; a child that is shut takes no memory.
pub fn child(
    alloc: Global,
    project: &Project,
    node: &Node,
    job: u8,
    mode: u8,
) -> Result<Child<Node>, NoMemory>
    requires node { StandsFor project.now node.now }
    requires eligible { IsEligible project.now node.now.front job }
    requires mode { IsMode project.now job mode }
    ensures child { IfOk result (λ c. IsChild project.now node.now.front job mode (child_front c)) }
    ensures stands { IfOk result (StandsWherePlaced project.now) }
    ensures shut { (why : Why) → IsShut project.now node.now.front job mode why → IsOk result }
{
    let needs = node.needs(project);
    if let Some(why) = cause_to_shut(project, &needs, job, mode) {
        return Ok(Child::Shut { job, mode, why });
    }
    let expansion = expand(alloc, project, node)?;
    let ready = ready(project, expansion.base(), job);
    let next = placed_child(project, &expansion, job, mode, ready)?;
    Ok(Child::Placed(next))
}

/// The children of the node: by ascending job, and then by ascending mode.
pub fn children(alloc: Global, project: &Project, node: &Node) -> Result<Children, NoMemory>
    requires { StandsFor project.now node.now }
    ensures children { IfOk result (λ cs. AreChildren project.now node.now.front (child_fronts cs)) }
    ensures stand { IfOk result (All (StandsWherePlaced project.now)) }

    // What completes the node can be exchanged, at no later end, for what completes one of the placed children.
    ensures exchange { IfOk result (λ cs. Exchanges project.now node.now.front (child_fronts cs)) }
{
    let expansion = expand(alloc, project, node)?;
    let all = children_of(alloc, project, &expansion)?;
    Ok(all)
}
