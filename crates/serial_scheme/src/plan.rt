ghost use Rattle.std.specs.Prelude.{◌≡◌, ◌≤◌, IfOk, IfSome, IfNone, MatchOption};
ghost use Rattle.rcpsp_model.specs.Project.{nonrenewables};
ghost use Rattle.rcpsp_model.specs.Schedule.{IsFeasible, entries, end_of};
ghost use Rattle.rcpsp_model.specs.Plan.{IsShortestMode, IsCheapestMode, IsPlanBy, HasNoPlanBy, IsFirstPlan};
ghost use Rattle.rcpsp_model.specs.Claim.{NoneIsFeasible};
ghost use Rattle.serial_scheme.specs.Rules.{HasMode};

use crate::budgets::keeps_budgets;
use crate::mode_rule::ModeRule;
use crate::scheme::serial_plan;
use project_net::{Project, Schedule};
use sched_base::NoMemory;
use std::alloc::Global;

/// The plan by the rule, or `None` where a job has no executable mode or the jobs need more than a budget.
fn plan_by(alloc: Global, project: &Project, rule: ModeRule) -> Result<Option<Schedule>, NoMemory>
    ensures plan { IfOk result (λ plan. MatchOption plan (HasNoPlanBy project.now (HasMode rule)) (IsPlanBy project.now (HasMode rule))) }
    ensures infeasible { IfOk result (λ plan. IfNone plan (nonrenewables project.now ≡ 0 → NoneIsFeasible project.now)) }
{
    project.known();
    let Some(placed) = serial_plan(alloc, project, rule)? else {
        return Ok(None);
    };
    let entries = placed.entries();
    if !keeps_budgets(project, entries) {
        return Ok(None);
    }
    let schedule = Schedule::of_entries(alloc, project.jobs(), entries)?;
    Ok(Some(schedule))
}

/// The plan that ends earlier, the first where both end at once.
fn earlier(project: &Project, first: Option<Schedule>, second: Option<Schedule>) -> Option<Schedule>
    requires first { MatchOption first (HasNoPlanBy project.now IsShortestMode) (IsPlanBy project.now IsShortestMode) }
    requires second { MatchOption second (HasNoPlanBy project.now IsCheapestMode) (IsPlanBy project.now IsCheapestMode) }
    ensures { IsFirstPlan project.now result }
{
    project.known();
    let Some(first) = first else {
        return second;
    };
    let Some(second) = second else {
        return Some(first);
    };
    let first_end = project.end(&first);
    let second_end = project.end(&second);
    if second_end < first_end {
        Some(second)
    } else {
        Some(first)
    }
}

/// The first plan: of the plans that the serial scheme makes by the two mode rules, the one that ends earlier, that of
/// the shortest modes on a tie; none where neither rule gives one.
///
/// A rule gives a plan where each job has an executable mode and the budgets are kept.
pub fn first_plan(alloc: Global, project: &Project) -> Result<Option<Schedule>, NoMemory>
    ensures first { IfOk result (IsFirstPlan project.now) }
    ensures feasible { IfOk result (λ plan. IfSome plan (IsFeasible project.now)) }
    ensures end { IfOk result (λ plan. IfSome plan (λ s. end_of project.now (entries s) ≤ 1290000)) }

    // Without a nonrenewable resource only a job that has no executable mode keeps the rules from a plan.
    ensures infeasible { IfOk result (λ plan. IfNone plan (nonrenewables project.now ≡ 0 → NoneIsFeasible project.now)) }
{
    project.known();
    let shortest = plan_by(alloc, project, ModeRule::Shortest)?;
    let cheapest = plan_by(alloc, project, ModeRule::Cheapest)?;
    Ok(earlier(project, shortest, cheapest))
}
