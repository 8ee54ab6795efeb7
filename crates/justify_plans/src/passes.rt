//! Passes over the placings of a feasible plan, in place.

ghost use Rattle.std.specs.Prelude.{◌≡◌, ◌≤◌};
ghost use Rattle.rcpsp_model.specs.Schedule.{IsFeasible, end_of, entries};
ghost use Rattle.justify_plans.specs.Passes.{IsPass};
ghost use Rattle.justify_plans.specs.Improved.{IsDoublePass, IsImproved};

use crate::direction::Direction;
use crate::moving::move_job;
use crate::order::next_job;
use crate::places::plan_end;
use project_net::Project;
use rcpsp_model::Placing;
use sched_base::{Job, JobSet};

/// Moves each job once.
pub fn run_pass(project: &Project, places: &mut [Placing], direction: Direction)
    requires feasible { IsFeasible project.now places.old }
    requires end { end_of project.now (entries places.old) ≤ 1290000 }
    ensures { IsPass direction project.now places.old places.new }
{
    project.known();
    let end = plan_end(project, places);
    let mut done = JobSet::empty();
    while let Some(job) = next_job(project, places, direction, done) {
        move_job(project, places, direction, job, end);
        done = done.with(Job(job));
    }
}

/// Moves each job back and then forth.
fn pass_twice(project: &Project, places: &mut [Placing])
    requires feasible { IsFeasible project.now places.old }
    requires end { end_of project.now (entries places.old) ≤ 1290000 }
    ensures { IsDoublePass project.now places.old places.new }
{
    project.known();
    run_pass(project, places, Direction::Backward);
    run_pass(project, places, Direction::Forward);
}

/// Moves the jobs back and forth while the end falls.
pub fn improve(project: &Project, places: &mut [Placing])
    requires feasible { IsFeasible project.now places.old }
    requires end { end_of project.now (entries places.old) ≤ 1290000 }
    ensures { IsImproved project.now places.old places.new }
{
    project.known();
    let mut end = plan_end(project, places);
    'passes: loop {
        pass_twice(project, places);
        let now = plan_end(project, places);
        if end <= now {
            return;
        }
        end = now;
    }
}
