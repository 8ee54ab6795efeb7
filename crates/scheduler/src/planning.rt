//! Plans that are made without a search of the tree.

ghost use Rattle.std.specs.Prelude.{◌≡◌, ◌≤◌, length, IfOk, IfSome};
ghost use Rattle.rcpsp_model.specs.Schedule.{IsFeasible, end_of, entries};
ghost use Rattle.plan_search.specs.Plans.{EndsNoLater};
ghost use Rattle.scheduler.specs.Planning.{IsJustified, IsPlanFrom, IsPlanned, IsStart};

use justify_plans::justify;
use plan_search::improve;
use project_net::{Project, Schedule};
use sched_base::NoMemory;
use serial_scheme::first_plan;
use std::alloc::Global;

/// A plan with its end.
#[derive(Drop)]
pub struct Plan {
    /// When the last job is done, in periods.
    pub duration: u32,
    /// Where each job stands.
    pub places: Schedule,
}

/// The plan that passes back and forth improve a plan to.
fn justified(
    alloc: Global,
    project: &Project,
    plan: Option<Schedule>,
) -> Result<Option<Schedule>, NoMemory>
    requires feasible { IfSome plan (IsFeasible project.now) }
    requires soon { IfSome plan (λ s. end_of project.now (entries s) ≤ 1290000) }
    ensures justified { IfOk result (IsJustified project.now plan) }
    ensures feasible { IfOk result (λ found. IfSome found (IsFeasible project.now)) }
    ensures soon { IfOk result (λ found. IfSome found (λ s. end_of project.now (entries s) ≤ 1290000)) }
    ensures no_later { IfOk result (EndsNoLater project.now plan) }
{
    match plan {
        Some(plan) => {
            let better = justify(alloc, project, &plan)?;
            Ok(Some(better))
        }
        None => Ok(None),
    }
}

/// What so many tries make of a plan, or of none.
#[tactic(auto, using(crate::proofs::NoLater::no_later_itself))]
fn tried(
    alloc: Global,
    project: &Project,
    plan: Option<Schedule>,
    tries: u32,
) -> Result<Option<Schedule>, NoMemory>
    requires feasible { IfSome plan (IsFeasible project.now) }
    requires soon { IfSome plan (λ s. end_of project.now (entries s) ≤ 1290000) }
    ensures untried { IfOk result (λ found. tries ≡ 0 → found ≡ plan) }
    ensures feasible { IfOk result (λ found. IfSome found (IsFeasible project.now)) }
    ensures soon { IfOk result (λ found. IfSome found (λ s. end_of project.now (entries s) ≤ 1290000)) }
    ensures no_later { IfOk result (EndsNoLater project.now plan) }
{
    if tries == 0 {
        return Ok(plan);
    }
    improve(alloc, project, plan, tries)
}

/// The plan from so many tries, which begin with the first plan, justified; with none of them it is that plan.
pub fn plan_from(alloc: Global, project: &Project, tries: u32) -> Result<Option<Schedule>, NoMemory>
    ensures plan { IfOk result (IsPlanFrom project.now tries) }
    ensures feasible { IfOk result (λ found. IfSome found (IsFeasible project.now)) }
    ensures soon { IfOk result (λ found. IfSome found (λ s. end_of project.now (entries s) ≤ 1290000)) }
{
    let first = first_plan(alloc, project)?;
    let better = justified(alloc, project, first)?;
    tried(alloc, project, better, tries)
}

/// What a search begins with: the first plan as it is, or the plan from so many tries.
pub fn start_of(alloc: Global, project: &Project, tries: u32) -> Result<Option<Schedule>, NoMemory>
    ensures start { IfOk result (IsStart project.now tries) }
    ensures feasible { IfOk result (λ found. IfSome found (IsFeasible project.now)) }
    ensures soon { IfOk result (λ found. IfSome found (λ s. end_of project.now (entries s) ≤ 1290000)) }
{
    if tries == 0 {
        first_plan(alloc, project)
    } else {
        plan_from(alloc, project, tries)
    }
}

/// A plan with its end.
fn with_end(project: &Project, plan: Option<Schedule>) -> Option<Plan>
    requires feasible { IfSome plan (IsFeasible project.now) }
    requires soon { IfSome plan (λ s. end_of project.now (entries s) ≤ 1290000) }
    ensures plan { result ≡ Rattle.scheduler.specs.Planning.with_end project.now plan }
    ensures jobs { IfSome result (λ p. length p.places ≤ 128) }
{
    project.known();
    match plan {
        Some(places) => {
            let duration = project.end(&places);
            Some(Plan { duration, places })
        }
        None => None,
    }
}

/// The plan from so many tries, with its end, or none where they made none.
pub fn planned(alloc: Global, project: &Project, tries: u32) -> Result<Option<Plan>, NoMemory>
    ensures planned { IfOk result (IsPlanned project.now tries) }
    ensures jobs { IfOk result (λ told. IfSome told (λ p. length p.places ≤ 128)) }
{
    let found = plan_from(alloc, project, tries)?;
    Ok(with_end(project, found))
}
