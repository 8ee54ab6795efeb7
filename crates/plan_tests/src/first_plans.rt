//! The first plans of worked projects.

use project_net::{Project, Schedule};
use sched_base::NoMemory;
use serial_scheme::first_plan;
use std::alloc::Global;
use std::process::Abort;
use std::test::Fail;
use worked_projects::{
    ASKS_TOO_MUCH, BUDGETS_ALONE, EIGHTEEN_JOBS, LONGER_MODE, NO_LENGTH, ONE_LONG_JOB,
    SHORT_OR_CHEAP, WorkedProject, build,
};

/// A project, and the mode and the start of each job in its first plan, or none.
struct Case {
    name: &'static str,
    project: WorkedProject,
    plan: Option<&'static [(u8, u32)]>,
}

/// Whether the schedule gives the jobs these modes and starts.
fn is_as(schedule: &Schedule, placings: &[(u8, u32)]) -> bool {
    if schedule.len() != placings.len() || placings.len() > 128 {
        return false;
    }
    for place in 0..placings.len() {
        let placing = schedule.place(place as u8 + 1);
        if placing.mode != placings[place].0 || placing.start != placings[place].1 {
            return false;
        }
    }
    true
}

static CASES: [Case; 9] = [
    Case {
        name: "the cheap modes",
        project: SHORT_OR_CHEAP,
        plan: Some(&[(1, 0), (2, 0), (2, 0), (1, 4)]),
    },
    Case {
        name: "a budget that is met exactly",
        project: WorkedProject {
            budgets: &[6],
            ..SHORT_OR_CHEAP
        },
        plan: Some(&[(1, 0), (1, 0), (1, 0), (1, 2)]),
    },
    Case {
        name: "a budget that no rule keeps",
        project: WorkedProject {
            budgets: &[1],
            ..SHORT_OR_CHEAP
        },
        plan: None,
    },
    Case {
        name: "modes that need the same in all",
        project: BUDGETS_ALONE,
        plan: None,
    },
    Case {
        name: "eighteen jobs",
        project: EIGHTEEN_JOBS,
        plan: Some(&[
            (1, 0),
            (1, 0),
            (1, 0),
            (1, 0),
            (1, 3),
            (1, 3),
            (1, 4),
            (1, 4),
            (1, 5),
            (1, 2),
            (1, 7),
            (1, 8),
            (1, 9),
            (1, 8),
            (1, 12),
            (1, 13),
            (1, 10),
            (1, 18),
        ]),
    },
    Case {
        name: "a longer mode that asks for as much",
        project: LONGER_MODE,
        plan: Some(&[(1, 0), (1, 0), (1, 3), (1, 5)]),
    },
    Case {
        name: "more than there is",
        project: ASKS_TOO_MUCH,
        plan: None,
    },
    Case {
        name: "jobs that take no time",
        project: NO_LENGTH,
        plan: Some(&[(1, 0), (1, 0), (1, 0), (1, 0), (1, 3)]),
    },
    Case {
        name: "the greatest numbers",
        project: ONE_LONG_JOB,
        plan: Some(&[(1, 0)]),
    },
];

/// Compares the first plan of the project with that of the case.
fn compare_plan(
    rt: &impl Abort,
    alloc: Global,
    project: &Project,
    case: &Case,
) -> Result<(), NoMemory> {
    let plan = first_plan(alloc, project)?;
    match (&plan, case.plan) {
        (None, None) => {}
        (Some(schedule), Some(placings)) => {
            assert!(rt; is_as(schedule, placings), "{}", case.name);
        }
        _ => assert!(rt; false, "{}", case.name),
    }
    Ok(())
}

fn compare(rt: &impl Abort, alloc: Global, case: &Case) -> Result<(), Fail> {
    let project = build(alloc, &case.project)?;
    Ok(compare_plan(rt, alloc, &project, case)?)
}

#[test]
fn first_plans(rt: HostRuntime) -> Result<(), Fail> {
    for case in &CASES {
        compare(&rt, rt.alloc(), case)?;
    }
    Ok(())
}
