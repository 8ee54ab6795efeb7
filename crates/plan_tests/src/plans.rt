//! Plans of first modes that are given by their starts.

ghost use Rattle.std.specs.Prelude.{◌≤◌, ◌↔◌, IsTrue, IfOk, All};
ghost use Rattle.rcpsp_model.specs.Schedule.{IsFeasible, end_of, entries};

use project_net::{Project, Schedule};
use rcpsp_model::Placing;
use sched_base::{List, NoMemory};
use std::alloc::Global;
use std::process::Abort;

fn are_early(places: &[Placing]) -> bool
    ensures { IsTrue result ↔ All (λ p. p.start ≤ 999999999) places.now }
{
    places.iter().all(|place| place.start <= 999_999_999)
}

/// The first modes at these starts.
fn places_at(alloc: Global, starts: &[u32]) -> Result<Vec<Placing>, NoMemory> {
    let mut places = Vec::new(alloc);
    for start in starts {
        places.push(Placing {
            mode: 1,
            start: *start,
        })?;
    }
    Ok(places)
}

/// The schedule of the first modes at these starts, which is feasible.
pub fn plan_of(
    rt: &impl Abort,
    alloc: Global,
    project: &Project,
    starts: &[u32],
) -> Result<Schedule, NoMemory>
    ensures feasible { IfOk result (IsFeasible project.now) }
    ensures end { IfOk result (λ s. end_of project.now (entries s) ≤ 1290000) }
{
    let places = places_at(alloc, starts)?;
    assert!(rt; are_early(places.as_slice()));
    let schedule = Schedule::new(List::from_vec(places));
    assert_eq!(rt; schedule.len(), project.jobs() as usize);
    assert!(rt; project.has_modes_of(&schedule));
    assert!(rt; project.is_feasible(&schedule));
    assert!(rt; project.end(&schedule) <= 1_290_000);
    Ok(schedule)
}
