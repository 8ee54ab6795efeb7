//! Plans after a pass back, after the pass forth that follows, and after as many as make them better.

use crate::plans::plan_of;
use justify_plans::{backward, forward, justify};
use project_net::{CalRow, Project, Schedule};
use sched_base::NoMemory;
use std::alloc::Global;
use std::process::Abort;
use std::test::Fail;
use worked_projects::{AFTER_A_BREAK, NO_LENGTH, TWO_IN_TURN, WorkedProject, build};

/// A project, the starts of its jobs in a plan, those after the backward pass, those after the forward pass that follows, and
/// those in the justified plan. Each job is in its first mode.
struct Case {
    name: &'static str,
    project: WorkedProject,
    plan: &'static [u32],
    late: &'static [u32],
    early: &'static [u32],
    justified: &'static [u32],
}

/// Four jobs without an order, of which some stand side by side.
const SIDE_BY_SIDE: WorkedProject = WorkedProject {
    jobs: &[
        (&[(2, &[2], &[])], &[]),
        (&[(3, &[1], &[])], &[]),
        (&[(2, &[2], &[])], &[]),
        (&[(1, &[1], &[])], &[]),
    ],
    capacities: &[3],
    budgets: &[],
    calendar: &[],
};

/// Three jobs of one period without an order, of which the second and the third ask for all there is.
const TIES: WorkedProject = WorkedProject {
    jobs: &[
        (&[(1, &[1], &[])], &[]),
        (&[(1, &[1], &[])], &[]),
        (&[(1, &[2], &[])], &[]),
    ],
    capacities: &[3],
    budgets: &[],
    calendar: &[],
};

/// A job of three periods and one behind it, with none of the resource in periods 2 and 8.
const TWO_BREAKS: WorkedProject = WorkedProject {
    jobs: &[(&[(3, &[1], &[])], &[2]), (&[(0, &[0], &[])], &[])],
    capacities: &[1],
    budgets: &[],
    calendar: &[
        CalRow {
            resource: 1,
            begin: 2,
            until: 3,
            capacity: 0,
        },
        CalRow {
            resource: 1,
            begin: 8,
            until: 9,
            capacity: 0,
        },
    ],
};

static CASES: [Case; 6] = [
    Case {
        name: "two in turn",
        project: TWO_IN_TURN,
        plan: &[0, 4, 0, 9],
        late: &[4, 6, 4, 9],
        early: &[0, 2, 0, 5],
        justified: &[0, 2, 0, 5],
    },
    Case {
        name: "a break at the start",
        project: AFTER_A_BREAK,
        plan: &[0, 5, 2, 9],
        late: &[4, 6, 4, 9],
        early: &[0, 4, 2, 7],
        justified: &[0, 4, 2, 7],
    },
    Case {
        name: "breaks on both sides",
        project: TWO_BREAKS,
        plan: &[5, 10],
        late: &[5, 10],
        early: &[3, 6],
        justified: &[3, 6],
    },
    Case {
        name: "an end that falls twice",
        project: SIDE_BY_SIDE,
        plan: &[2, 3, 0, 2],
        late: &[4, 3, 1, 3],
        early: &[3, 0, 0, 2],
        justified: &[2, 0, 0, 3],
    },
    Case {
        name: "ties by rank",
        project: TIES,
        plan: &[1, 0, 0],
        late: &[1, 0, 1],
        early: &[0, 0, 1],
        justified: &[0, 0, 1],
    },
    Case {
        name: "jobs that take no time",
        project: NO_LENGTH,
        plan: &[2, 1, 0, 4, 1],
        late: &[4, 4, 4, 4, 2],
        early: &[0, 0, 0, 2, 0],
        justified: &[0, 0, 0, 2, 0],
    },
];

/// Whether the jobs start then, in their first modes.
fn is_as(schedule: &Schedule, starts: &[u32]) -> bool {
    if schedule.len() != starts.len() || starts.len() > 128 {
        return false;
    }
    for place in 0..starts.len() {
        let placing = schedule.place(place as u8 + 1);
        if placing.mode != 1 || placing.start != starts[place] {
            return false;
        }
    }
    true
}

/// Compares the plan after each pass with that of the case.
fn compare_passes(
    rt: &impl Abort,
    alloc: Global,
    project: &Project,
    case: &Case,
) -> Result<(), NoMemory> {
    let plan = plan_of(rt, alloc, project, case.plan)?;
    let late = backward(alloc, project, &plan)?;
    assert!(rt; is_as(&late, case.late), "{}", case.name);
    let early = forward(alloc, project, &late)?;
    assert!(rt; is_as(&early, case.early), "{}", case.name);
    Ok(())
}

fn pass(rt: &impl Abort, alloc: Global, case: &Case) -> Result<(), Fail> {
    let project = build(alloc, &case.project)?;
    Ok(compare_passes(rt, alloc, &project, case)?)
}

#[test]
fn passes(rt: HostRuntime) -> Result<(), Fail> {
    for case in &CASES {
        pass(&rt, rt.alloc(), case)?;
    }
    Ok(())
}

/// Compares the justified plan with that of the case.
fn compare_justified(
    rt: &impl Abort,
    alloc: Global,
    project: &Project,
    case: &Case,
) -> Result<(), NoMemory> {
    let plan = plan_of(rt, alloc, project, case.plan)?;
    let justified = justify(alloc, project, &plan)?;
    assert!(rt; is_as(&justified, case.justified), "{}", case.name);
    Ok(())
}

fn justify_case(rt: &impl Abort, alloc: Global, case: &Case) -> Result<(), Fail> {
    let project = build(alloc, &case.project)?;
    Ok(compare_justified(rt, alloc, &project, case)?)
}

#[test]
fn justified_plans(rt: HostRuntime) -> Result<(), Fail> {
    for case in &CASES {
        justify_case(&rt, rt.alloc(), case)?;
    }
    Ok(())
}
