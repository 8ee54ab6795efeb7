//! Where a job is moved.

ghost use Rattle.std.specs.Prelude.{◌≡◌, ℕ, ◌≤◌};
ghost use Rattle.rcpsp_model.specs.Project.{IsJob, Before};
ghost use Rattle.rcpsp_model.specs.Schedule.{IsFeasible, end_of, entries};
ghost use Rattle.project_net.specs.Feasible.{IsPlaced};
ghost use Rattle.justify_plans.specs.declared.direction.Direction.{Direction as Way};
ghost use Rattle.justify_plans.specs.Placings.{start_in, finish_in};
ghost use Rattle.justify_plans.specs.Passes.{IsNewStart, Moves};

use crate::direction::Direction;
use crate::places::{entry_of, finish_of, set_start};
use crate::search::{first_fit, last_fit};
use project_net::Project;
use rcpsp_model::Placing;

/// The least of an end and the starts of a job's successors.
fn latest_finish(project: &Project, places: &[Placing], job: u8, end: u32) -> u32
    requires job { IsJob project.now job }
    requires placed { IsPlaced project.now places.now }
    ensures end { result ≤ end }
    ensures succs { (j : ℕ) → Before project.now job j → result ≤ start_in places.now j }
    ensures greatest { (f : ℕ) → f ≤ end → ((j : ℕ) → Before project.now job j → f ≤ start_in places.now j) → f ≤ result }
{
    project.known();
    let successors = project.succs(job);
    let mut latest = end;
    let mut last = 0;
    while let Some(next) = successors.next_after(last) {
        let start = entry_of(project, places, next.0).start;
        if start < latest {
            latest = start;
        }
        last = next.0;
    }
    latest
}

/// The greatest finish of a job's predecessors.
fn earliest_start(project: &Project, places: &[Placing], job: u8) -> u32
    requires job { IsJob project.now job }
    requires placed { IsPlaced project.now places.now }
    ensures preds { (i : ℕ) → Before project.now i job → finish_in project.now places.now i ≤ result }
    ensures least { (t : ℕ) → ((i : ℕ) → Before project.now i job → finish_in project.now places.now i ≤ t) → result ≤ t }
{
    project.known();
    let predecessors = project.preds(job);
    let mut earliest = 0;
    let mut last = 0;
    while let Some(next) = predecessors.next_after(last) {
        let finish = finish_of(project, places, next.0);
        if earliest < finish {
            earliest = finish;
        }
        last = next.0;
    }
    earliest
}

/// Where a job of a feasible plan is moved, in a pass up to an end that the plan keeps.
fn new_start(project: &Project, places: &[Placing], direction: Direction, job: u8, end: u32) -> u32
    requires job { IsJob project.now job }
    requires feasible { IsFeasible project.now places.now }
    requires within { end_of project.now (entries places.now) ≤ end }
    requires end { end ≤ 1290000 }
    ensures { IsNewStart direction project.now end places.now job result }
{
    project.known();
    match direction {
        Direction::Backward => {
            let until = latest_finish(project, places, job, end);
            last_fit(project, places, job, until)
        }
        Direction::Forward => {
            let from = earliest_start(project, places, job);
            first_fit(project, places, job, from)
        }
    }
}

/// Moves a job of a feasible plan, in a pass up to an end that the plan keeps.
pub fn move_job(project: &Project, places: &mut [Placing], direction: Direction, job: u8, end: u32)
    requires job { IsJob project.now job }
    requires feasible { IsFeasible project.now places.old }
    requires within { end_of project.now (entries places.old) ≤ end }
    requires end { end ≤ 1290000 }
    ensures { Moves direction project.now end places.old job places.new }
{
    let start = new_start(project, places, direction, job, end);
    set_start(project, places, job, start);
}
