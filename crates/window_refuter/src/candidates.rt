ghost use Rattle.std.specs.Prelude.{◌≡◌, ℕ, ◌≤◌, Contains, IfOk, OnOk};
ghost use Rattle.rcpsp_model.specs.Project.{IsJob};
ghost use Rattle.window_refuter.specs.Steps.{IsConflict};
ghost use Rattle.window_refuter.specs.Narrowing.{IsGrounded};
ghost use Rattle.window_refuter.specs.Candidates.{HasConflict, AreNarrowingSteps, Extends, HasStepsOf};

use crate::least::conflict;
use crate::narrowing::is_grounded;
use crate::step::BoundStep;
use project_net::Project;
use sched_base::{List, NoMemory};
use std::alloc::Global;

/// Appends a step where the project has the pair or the conflict that it rests on.
fn push_step(project: &Project, steps: &mut Vec<BoundStep>, step: BoundStep) -> Result<(), NoMemory>
    ensures extends { OnOk result (Extends project.now steps.old.items steps.new.items) }
    ensures has { OnOk result (IsGrounded project.now step → Contains steps.new.items step) }
{
    if is_grounded(project, step) {
        steps.push(step)?;
    }
    Ok(())
}

/// Appends a step for two jobs in conflict, by the lowest resource of which they ask for too much.
fn push_conflict(
    project: &Project,
    steps: &mut Vec<BoundStep>,
    first: u8,
    second: u8,
) -> Result<(), NoMemory>
    ensures extends { OnOk result (Extends project.now steps.old.items steps.new.items) }
    ensures has { OnOk result ((k : ℕ) → IsConflict project.now first second k → HasConflict steps.new.items first second) }
{
    for resource in 1..project.renewables() + 1 {
        if conflict(project, first, second, resource) {
            return push_step(project, steps, BoundStep::Disjoint(first, second, resource));
        }
    }
    Ok(())
}

/// Appends the steps that begin with a job and name another, and the tail step of that other job and the job that stands at
/// the same place from the end.
fn push_steps_of(
    project: &Project,
    steps: &mut Vec<BoundStep>,
    first: u8,
    second: u8,
) -> Result<(), NoMemory>
    requires { IsJob project.now first }
    ensures extends { OnOk result (Extends project.now steps.old.items steps.new.items) }
    ensures has { OnOk result (HasStepsOf project.now steps.new.items first second) }
{
    let last = project.jobs() - first + 1;
    push_step(project, steps, BoundStep::Head(first, second))?;
    push_step(project, steps, BoundStep::Tail(second, last))?;
    push_conflict(project, steps, first, second)?;
    Ok(())
}

/// The same for all other jobs.
fn push_all_steps_of(
    project: &Project,
    steps: &mut Vec<BoundStep>,
    first: u8,
) -> Result<(), NoMemory>
    requires { IsJob project.now first }
    ensures extends { OnOk result (Extends project.now steps.old.items steps.new.items) }
    ensures has { OnOk result ((j : ℕ) → IsJob project.now j → HasStepsOf project.now steps.new.items first j) }
{
    for done in 0..project.jobs() {
        push_steps_of(project, steps, first, done + 1)?;
    }
    Ok(())
}

/// The steps of a project that may narrow a window: one of either kind for each pair, those that raise starts from the first
/// job to the last and those that lower finishes from the last to the first, and one for each two jobs in conflict.
///
/// # Errors
///
/// [`NoMemory`] where memory was refused.
pub fn narrowing_steps(alloc: Global, project: &Project) -> Result<List<BoundStep>, NoMemory>
    ensures { IfOk result (AreNarrowingSteps project.now) }
{
    project.known();
    let mut steps = Vec::new(alloc);
    for done in 0..project.jobs() {
        push_all_steps_of(project, &mut steps, done + 1)?;
    }
    Ok(List::from_vec(steps))
}
