ghost use Rattle.std.specs.Prelude.{◌≤◌};
ghost use Rattle.rcpsp_model.specs.Project.{IsJob, IsMode, nonrenewables};

use crate::{DraftRow, NO_LENGTH, SHORT_OR_CHEAP, WorkedProject, build};
use project_net::{BuildRefusal, CalRow, Project};
use sched_base::NoMemory;
use std::alloc::Global;
use std::process::Abort;
use std::test::Fail;

const SHORT: DraftRow = (&[(1, &[1], &[])], &[]);

/// Jobs with one unit of one renewable resource, and a calendar of it, that are no project; and why.
const REFUSED: &[(&[DraftRow], &[CalRow], BuildRefusal)] = &[
    (&[], &[], BuildRefusal::OutOfLimit { job: 0 }),
    (&[SHORT; 129], &[], BuildRefusal::OutOfLimit { job: 0 }),
    (
        &[SHORT],
        &[CalRow {
            resource: 1,
            begin: 0,
            until: 1,
            capacity: 2,
        }],
        BuildRefusal::OutOfLimit { job: 0 },
    ),
    (
        &[SHORT, (&[(10_001, &[1], &[])], &[])],
        &[],
        BuildRefusal::OutOfLimit { job: 2 },
    ),
    (
        &[(&[(1, &[1], &[])], &[2, 3]), SHORT],
        &[],
        BuildRefusal::SuccessorOutOfRange { job: 1 },
    ),
    (
        &[
            (&[(1, &[1], &[])], &[2]),
            (&[(1, &[1], &[])], &[3]),
            (&[(1, &[1], &[])], &[2]),
        ],
        &[],
        BuildRefusal::Cycle { job: 2 },
    ),
];

#[test]
fn rows_that_are_no_project(rt: HostRuntime) {
    for (jobs, calendar, why) in REFUSED {
        let rows = WorkedProject {
            jobs,
            capacities: &[1],
            budgets: &[],
            calendar,
        };
        assert_eq!(rt; build(rt.alloc(), &rows).err(), Some(*why));
    }
}

/// What a project says of a job: the number of its modes, its least duration, tail and rank, and the sets of its direct
/// predecessors and successors.
type JobFacts = (u8, u32, u32, u8, u128, u128);

fn facts_of(project: &Project, job: u8) -> JobFacts
    requires { IsJob project.now job }
{
    (
        project.modes(job),
        project.least_duration(job),
        project.tail(job),
        project.rank(job),
        project.preds(job).0,
        project.succs(job).0,
    )
}

/// Projects with what they say of their jobs.
const FACTS: &[(&WorkedProject, &[JobFacts])] = &[
    (
        &NO_LENGTH,
        &[
            (1, 0, 3, 3, 0b00010, 0b01000),
            (1, 0, 3, 2, 0b00100, 0b00001),
            (1, 0, 3, 1, 0b00000, 0b00010),
            (1, 3, 3, 4, 0b00001, 0b00000),
            (1, 2, 2, 5, 0b00000, 0b00000),
        ],
    ),
    (
        &SHORT_OR_CHEAP,
        &[
            (1, 0, 2, 1, 0b0000, 0b0110),
            (2, 2, 2, 2, 0b0001, 0b1000),
            (2, 2, 2, 3, 0b0001, 0b1000),
            (1, 0, 0, 4, 0b0110, 0b0000),
        ],
    ),
];

fn compare_facts(rt: &impl Abort, project: &Project, rows: &[JobFacts]) {
    assert_eq!(rt; project.jobs() as usize, rows.len());
    for place in 0..rows.len() {
        let facts = facts_of(project, place as u8 + 1);
        assert_eq!(rt; facts, rows[place]);
    }
}

#[test]
fn facts_of_jobs(rt: HostRuntime) -> Result<(), Fail> {
    for (worked, rows) in FACTS {
        let project = build(rt.alloc(), worked)?;
        compare_facts(&rt, &project, rows);
    }
    Ok(())
}

/// Appends the duration, the requests and the needs of a mode.
fn append_mode(numbers: &mut Vec<u32>, project: &Project, job: u8, mode: u8) -> Result<(), NoMemory>
    requires job { IsJob project.now job }
    requires mode { IsMode project.now job mode }
{
    numbers.push(project.duration(job, mode))?;
    for resource in 1..project.renewables() + 1 {
        numbers.push(project.request(job, mode, resource))?;
    }
    for resource in 1..project.nonrenewables() + 1 {
        numbers.push(project.need(job, mode, resource))?;
    }
    Ok(())
}

/// Compares a project with nine of its first budget with the project itself.
fn compare_budgets(rt: &impl Abort, alloc: Global, project: &Project) -> Result<(), NoMemory>
    requires { 1 ≤ nonrenewables project.now }
{
    let changed = Box::new(alloc, project.with_budget(alloc, 1, 9)?)?;
    assert_eq!(rt; changed.budgets(), [9].as_slice());
    assert_eq!(rt; changed.capacities(), project.capacities());
    Ok(())
}

/// The numbers of all modes.
fn mode_numbers(alloc: Global, project: &Project) -> Result<Vec<u32>, NoMemory> {
    let mut numbers = Vec::new(alloc);
    for job in 1..project.jobs() + 1 {
        for mode in 1..project.modes(job) + 1 {
            append_mode(&mut numbers, project, job, mode)?;
        }
    }
    Ok(numbers)
}

#[test]
fn modes_and_another_budget(rt: HostRuntime) -> Result<(), Fail> {
    let project = build(rt.alloc(), &SHORT_OR_CHEAP)?;
    let numbers = mode_numbers(rt.alloc(), &project)?;
    let wanted: &[u32] = &[0, 0, 0, 2, 1, 3, 4, 1, 1, 2, 1, 3, 4, 1, 1, 0, 0, 0];
    assert_eq!(rt; numbers.as_slice(), wanted);
    assert_eq!(rt; project.nonrenewables(), 1);
    compare_budgets(&rt, rt.alloc(), &project)?;
    Ok(())
}
