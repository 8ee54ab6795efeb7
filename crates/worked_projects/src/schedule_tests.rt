ghost use Rattle.std.specs.Prelude.{◌≤◌, ◌↔◌, IsTrue, All};

use crate::{AFTER_A_BREAK, build};
use project_net::{CalRow, Placing, Project, Schedule};
use sched_base::{List, NoMemory};
use std::alloc::Global;
use std::process::Abort;
use std::test::Fail;

fn are_early(places: &[Placing]) -> bool
    ensures { IsTrue result ↔ All (λ p. p.start ≤ 999999999) places.now }
{
    places.iter().all(|place| place.start <= 999_999_999)
}

/// The end of the schedule with these starts, and whether it is feasible.
fn judged(
    rt: &impl Abort,
    alloc: Global,
    project: &Project,
    starts: &[u32],
) -> Result<(u32, bool), NoMemory> {
    let mut places = Vec::new(alloc);
    for start in starts {
        places.push(Placing {
            mode: 1,
            start: *start,
        })?;
    }
    assert!(rt; are_early(places.as_slice()));
    let schedule = Schedule::new(List::from_vec(places));
    assert_eq!(rt; schedule.len(), project.jobs() as usize);
    assert!(rt; project.has_modes_of(&schedule));
    Ok((project.end(&schedule), project.is_feasible(&schedule)))
}

/// Starts of the jobs of `AFTER_A_BREAK`, with the end of the schedule, and whether it is feasible.
const ENDS: &[([u32; 4], u32, bool)] = &[
    ([0, 2, 5, 7], 7, true),
    ([2, 4, 2, 7], 7, true),
    ([0, 2, 9, 11], 11, true),
    ([0, 1, 4, 6], 6, false),
    ([0, 2, 4, 7], 7, false),
    ([0, 2, 5, 6], 7, false),
    ([3, 2, 5, 7], 7, false),
    ([0, 0, 5, 7], 7, false),
];

#[test]
fn ends_and_feasibility(rt: HostRuntime) -> Result<(), Fail> {
    let project = build(rt.alloc(), &AFTER_A_BREAK)?;
    for (starts, end, is_feasible) in ENDS {
        let found = judged(&rt, rt.alloc(), &project, starts)?;
        assert_eq!(rt; found, (*end, *is_feasible));
    }
    Ok(())
}

#[test]
fn capacities_by_period(rt: HostRuntime) -> Result<(), Fail> {
    let project = build(rt.alloc(), &AFTER_A_BREAK)?;
    assert_eq!(rt; project.calm(), 2);
    assert_eq!(rt; project.cal_rows(), 1);
    let row = CalRow {
        resource: 1,
        begin: 0,
        until: 2,
        capacity: 1,
    };
    assert_eq!(rt; project.cal_row(0), row);
    assert_eq!(rt; project.renewables(), 1);
    for (period, want) in [1, 1, 3].iter().enumerate() {
        assert_eq!(rt; project.capacity_at(1, period as u32), *want);
    }
    Ok(())
}
