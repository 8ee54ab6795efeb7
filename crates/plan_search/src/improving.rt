ghost use Rattle.std.specs.Prelude.{◌≡◌, ◌≤◌, length, Some, IfOk, IfSome};
ghost use Rattle.rcpsp_model.specs.Project.{job_count};
ghost use Rattle.rcpsp_model.specs.Schedule.{IsFeasible, end_of, entries};
ghost use Rattle.project_net.specs.Feasible.{IsPlaced};
ghost use Rattle.plan_search.specs.Plans.{EndsNoLater};

use crate::modes::take_first_modes;
use crate::tries::{run_tries, tools_for};
use justify_plans::justify;
use project_net::{Project, Schedule};
use rcpsp_model::Placing;
use sched_base::{List, NoMemory};
use std::alloc::Global;

/// The latest end that a plan may have.
const LAST_END: u32 = 1_290_000;

/// The placings of a schedule.
fn copy(alloc: Global, project: &Project, schedule: &Schedule) -> Result<Vec<Placing>, NoMemory>
    requires { length schedule.now ≡ job_count project.now }
    ensures { IfOk result (λ places. places.items ≡ schedule.now) }
{
    let mut places = Vec::new(alloc);
    places.reserve_exact(schedule.len())?;
    for done in 0..project.jobs() {
        places.push(schedule.place(done + 1))?;
    }
    Ok(places)
}

/// Each job in its first mode that can run, from period 0 on, which is no plan yet.
fn unplaced(alloc: Global, project: &Project) -> Result<Vec<Placing>, NoMemory>
    ensures { IfOk result (λ places. IsPlaced project.now places.items) }
{
    project.known();
    let first = Placing { mode: 1, start: 0 };
    let mut places = vec![in alloc; first; usize::from(project.jobs())]?;
    take_first_modes(project, &mut places);
    Ok(places)
}

/// What so many tries make of the placings of a plan with this end, or of no plan.
fn searched(
    alloc: Global,
    project: &Project,
    mut kept: Vec<Placing>,
    end: Option<u32>,
    tries: u32,
) -> Result<Option<Schedule>, NoMemory>
    requires { IsPlaced project.now kept.items }
    ensures { IfOk result (λ found. IfSome found (IsPlaced project.now)) }
{
    let mut made = kept.clone()?;
    let mut tools = tools_for(alloc, project)?;
    match run_tries(project, &mut kept, &mut made, &mut tools, end, tries) {
        Some(_) => Ok(Some(Schedule::new(List::from_vec(kept)))),
        None => Ok(None),
    }
}

/// A schedule, where it is feasible and ends by a period.
fn judged(project: &Project, found: Option<Schedule>, by: u32) -> Option<Schedule>
    requires { IfSome found (IsPlaced project.now) }
    ensures feasible { IfSome result (IsFeasible project.now) }
    ensures end { IfSome result (λ s. end_of project.now (entries s) ≤ by) }
{
    let schedule = found?;
    if !project.is_feasible(&schedule) {
        return None;
    }
    let end = project.end(&schedule);
    if end <= by { Some(schedule) } else { None }
}

/// A plan that ends no later, from so many tries that begin with the plan.
fn improve_plan(
    alloc: Global,
    project: &Project,
    plan: Schedule,
    tries: u32,
) -> Result<Schedule, NoMemory>
    requires feasible { IsFeasible project.now plan }
    requires end { end_of project.now (entries plan) ≤ 1290000 }
    ensures feasible { IfOk result (IsFeasible project.now) }
    ensures end { IfOk result (λ s. end_of project.now (entries s) ≤ end_of project.now (entries plan)) }
{
    let places = copy(alloc, project, &plan)?;
    let end = project.end(&plan);
    let found = searched(alloc, project, places, Some(end), tries)?;
    match judged(project, found, end) {
        Some(better) => justify(alloc, project, &better),
        None => justify(alloc, project, &plan),
    }
}

/// A plan from so many tries that begin with none.
fn find_plan(alloc: Global, project: &Project, tries: u32) -> Result<Option<Schedule>, NoMemory>
    ensures feasible { IfOk result (λ found. IfSome found (IsFeasible project.now)) }
    ensures end { IfOk result (λ found. IfSome found (λ s. end_of project.now (entries s) ≤ 1290000)) }
{
    let places = unplaced(alloc, project)?;
    let found = searched(alloc, project, places, None, tries)?;
    match judged(project, found, LAST_END) {
        Some(plan) => {
            let justified = justify(alloc, project, &plan)?;
            Ok(Some(justified))
        }
        None => Ok(None),
    }
}

/// A plan from so many tries, which begin with the plan that is given, or with none: one where one is given, and it ends no
/// later than that one.
///
/// A try changes the modes of a few jobs, brings the needs back within the budgets, orders the jobs by their starts and by
/// chance, places them one by one, and pulls them together by a pass back and one forth; what ends no later is kept. Some tries
/// at first begin anew. Nothing is claimed of how early the plan ends. The words of the generator come from one seed, so the
/// same project, plan and number of tries give the same plan.
///
/// # Errors
///
/// [`NoMemory`] where memory was refused. All of it is taken before the first try and after the last.
pub fn improve(
    alloc: Global,
    project: &Project,
    plan: Option<Schedule>,
    tries: u32,
) -> Result<Option<Schedule>, NoMemory>
    requires feasible { IfSome plan (IsFeasible project.now) }
    requires end { IfSome plan (λ s. end_of project.now (entries s) ≤ 1290000) }
    ensures feasible { IfOk result (λ found. IfSome found (IsFeasible project.now)) }
    ensures end { IfOk result (λ found. IfSome found (λ s. end_of project.now (entries s) ≤ 1290000)) }
    ensures no_later { IfOk result (EndsNoLater project.now plan) }
{
    match plan {
        Some(plan) => {
            let better = improve_plan(alloc, project, plan, tries)?;
            Ok(Some(better))
        }
        None => find_plan(alloc, project, tries),
    }
}
