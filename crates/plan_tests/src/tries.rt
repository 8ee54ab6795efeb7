//! Plans that a search by tries finds, from a plan that is given or from none.

ghost use Rattle.std.specs.Prelude.{◌≤◌, IfOk, IfSome};
ghost use Rattle.rcpsp_model.specs.Schedule.{IsFeasible, end_of, entries};

use crate::plans::plan_of;
use plan_search::improve;
use project_net::{Project, Schedule};
use sched_base::NoMemory;
use std::alloc::Global;
use std::process::Abort;
use std::test::Fail;
use worked_projects::{
    AFTER_A_BREAK, ASKS_TOO_MUCH, EIGHTEEN_JOBS, EIGHTEEN_JOBS_TIGHT, SHORT_OR_CHEAP, TWO_IN_TURN,
    WorkedProject, build,
};

/// A project, the starts of its jobs in a plan that is given or none, each in its first mode, and its least duration, which
/// is where the last job starts, or none where no schedule is feasible.
struct Case {
    name: &'static str,
    project: WorkedProject,
    given: Option<&'static [u32]>,
    least: Option<u32>,
}

static CASES: [Case; 6] = [
    Case {
        name: "two modes",
        project: SHORT_OR_CHEAP,
        given: None,
        least: Some(4),
    },
    Case {
        name: "a calendar",
        project: AFTER_A_BREAK,
        given: None,
        least: Some(7),
    },
    Case {
        name: "a calendar and a plan",
        project: AFTER_A_BREAK,
        given: Some(&[0, 5, 2, 9]),
        least: Some(7),
    },
    Case {
        name: "a plan",
        project: TWO_IN_TURN,
        given: Some(&[0, 4, 0, 9]),
        least: Some(5),
    },
    Case {
        name: "eighteen jobs",
        project: EIGHTEEN_JOBS,
        given: None,
        least: Some(18),
    },
    Case {
        name: "more than there is",
        project: ASKS_TOO_MUCH,
        given: None,
        least: None,
    },
];

/// The plan that is given, if one is.
fn given_plan(
    rt: &impl Abort,
    alloc: Global,
    project: &Project,
    given: Option<&[u32]>,
) -> Result<Option<Schedule>, NoMemory>
    ensures feasible { IfOk result (λ plan. IfSome plan (IsFeasible project.now)) }
    ensures end { IfOk result (λ plan. IfSome plan (λ s. end_of project.now (entries s) ≤ 1290000)) }
{
    match given {
        Some(starts) => {
            let plan = plan_of(rt, alloc, project, starts)?;
            Ok(Some(plan))
        }
        None => Ok(None),
    }
}

/// Where the last job starts.
fn last_start(plan: &Schedule) -> Option<u32> {
    let jobs = plan.len();
    if jobs < 1 || jobs > 128 {
        return None;
    }
    Some(plan.place(jobs as u8).start)
}

/// Whether two plans give each job the same mode and start.
fn are_same(first: &Schedule, second: &Schedule) -> bool {
    if first.len() != second.len() || first.len() > 128 {
        return false;
    }
    for place in 0..first.len() {
        if first.place(place as u8 + 1) != second.place(place as u8 + 1) {
            return false;
        }
    }
    true
}

/// Where the last job starts in a plan from a hundred tries.
fn found_end(
    alloc: Global,
    project: &Project,
    given: Option<Schedule>,
) -> Result<Option<u32>, NoMemory>
    requires feasible { IfSome given (IsFeasible project.now) }
    requires end { IfSome given (λ s. end_of project.now (entries s) ≤ 1290000) }
{
    match improve(alloc, project, given, 100)? {
        Some(plan) => Ok(last_start(&plan)),
        None => Ok(None),
    }
}

/// Compares the end that is found with the least of the case.
fn compare_end(
    rt: &impl Abort,
    alloc: Global,
    project: &Project,
    case: &Case,
) -> Result<(), NoMemory> {
    let given = given_plan(rt, alloc, project, case.given)?;
    let found = found_end(alloc, project, given)?;
    assert_eq!(rt; found, case.least, "{}", case.name);
    Ok(())
}

fn compare(rt: &impl Abort, alloc: Global, case: &Case) -> Result<(), Fail> {
    let project = build(alloc, &case.project)?;
    Ok(compare_end(rt, alloc, &project, case)?)
}

#[test]
fn worked_plans(rt: HostRuntime) -> Result<(), Fail> {
    for case in &CASES {
        compare(&rt, rt.alloc(), case)?;
    }
    Ok(())
}

/// The same tries find the same plan.
fn compare_again(rt: &impl Abort, alloc: Global, project: &Project) -> Result<(), NoMemory> {
    let first = improve(alloc, project, None, 100)?;
    let second = improve(alloc, project, None, 100)?;
    match (&first, &second) {
        (Some(first), Some(second)) => assert!(rt; are_same(first, second)),
        _ => assert!(rt; false),
    }
    Ok(())
}

#[test]
fn same_plan_again(rt: HostRuntime) -> Result<(), Fail> {
    let project = build(rt.alloc(), &EIGHTEEN_JOBS_TIGHT)?;
    Ok(compare_again(&rt, rt.alloc(), &project)?)
}
