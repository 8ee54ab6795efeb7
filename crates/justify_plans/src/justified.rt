ghost use Rattle.std.specs.Prelude.{◌≡◌, ◌≤◌, length, IfOk};
ghost use Rattle.rcpsp_model.specs.Project.{job_count};
ghost use Rattle.rcpsp_model.specs.Schedule.{IsFeasible, end_of, entries};
ghost use Rattle.justify_plans.specs.Passes.{IsBackward, IsForward, IsPass};
ghost use Rattle.justify_plans.specs.Improved.{IsImproved, HasSameModes};

use crate::direction::Direction;
use crate::passes::{improve, run_pass};
use project_net::{Project, Schedule};
use rcpsp_model::Placing;
use sched_base::{List, NoMemory};
use std::alloc::Global;

/// The placings of a schedule.
fn copy(alloc: Global, project: &Project, schedule: &Schedule) -> Result<Vec<Placing>, NoMemory>
    requires { length schedule.now ≡ job_count project.now }
    ensures { IfOk result (λ places. places.items ≡ schedule.now) }
{
    let mut places = Vec::new(alloc);
    places.reserve_exact(schedule.len())?;
    for done in 0..project.jobs() {
        places.push(schedule.place(done + 1))?;
    }
    Ok(places)
}

/// The schedule after a pass over its placings.
fn passed(project: &Project, mut places: Vec<Placing>, direction: Direction) -> Schedule
    requires feasible { IsFeasible project.now places.items }
    requires end { end_of project.now (entries places.items) ≤ 1290000 }
    ensures { IsPass direction project.now places.items result }
{
    run_pass(project, &mut places, direction);
    Schedule::new(List::from_vec(places))
}

/// The schedule to which its placings are improved.
fn improved(project: &Project, mut places: Vec<Placing>) -> Schedule
    requires feasible { IsFeasible project.now places.items }
    requires end { end_of project.now (entries places.items) ≤ 1290000 }
    ensures { IsImproved project.now places.items result }
{
    improve(project, &mut places);
    Schedule::new(List::from_vec(places))
}

/// The backward pass: the jobs are taken by falling finish, the greater rank first on a tie, and each is moved to the
/// greatest start at which it is done by the end of the schedule and before its successors start, and fits beside all other
/// jobs where they now are.
pub fn backward(alloc: Global, project: &Project, schedule: &Schedule) -> Result<Schedule, NoMemory>
    requires feasible { IsFeasible project.now schedule.now }
    requires end { end_of project.now (entries schedule.now) ≤ 1290000 }
    ensures pass { IfOk result (IsBackward project.now schedule.now) }
    ensures feasible { IfOk result (IsFeasible project.now) }
    ensures modes { IfOk result (HasSameModes schedule.now) }
    ensures end { IfOk result (λ r. end_of project.now (entries r) ≤ end_of project.now (entries schedule.now)) }
{
    project.known();
    let places = copy(alloc, project, schedule)?;
    Ok(passed(project, places, Direction::Backward))
}

/// The forward pass: the jobs are taken by rising start, the lower rank first on a tie, and each is moved to the least start
/// at which its predecessors are done and it fits beside all other jobs where they now are.
pub fn forward(alloc: Global, project: &Project, schedule: &Schedule) -> Result<Schedule, NoMemory>
    requires feasible { IsFeasible project.now schedule.now }
    requires end { end_of project.now (entries schedule.now) ≤ 1290000 }
    ensures pass { IfOk result (IsForward project.now schedule.now) }
    ensures feasible { IfOk result (IsFeasible project.now) }
    ensures modes { IfOk result (HasSameModes schedule.now) }
    ensures end { IfOk result (λ r. end_of project.now (entries r) ≤ end_of project.now (entries schedule.now)) }
{
    project.known();
    let places = copy(alloc, project, schedule)?;
    Ok(passed(project, places, Direction::Forward))
}

/// The justified schedule: passes back and forth go on while the end falls, and the result is that of the last one.
///
/// The one refusal is that of memory, before anything is moved.
pub fn justify(alloc: Global, project: &Project, schedule: &Schedule) -> Result<Schedule, NoMemory>
    requires feasible { IsFeasible project.now schedule.now }
    requires end { end_of project.now (entries schedule.now) ≤ 1290000 }
    ensures improved { IfOk result (IsImproved project.now schedule.now) }
    ensures feasible { IfOk result (IsFeasible project.now) }
    ensures modes { IfOk result (HasSameModes schedule.now) }
    ensures end { IfOk result (λ r. end_of project.now (entries r) ≤ end_of project.now (entries schedule.now)) }
{
    project.known();
    let places = copy(alloc, project, schedule)?;
    Ok(improved(project, places))
}
