//! Which job is moved next.

ghost use Rattle.std.specs.Prelude.{◌≡◌, ℕ, ◌⊎◌, Some, true, IfSome, IfNone};
ghost use Rattle.std.specs.Bool.{OnTrue, OnFalse};
ghost use Rattle.std.specs.Option.{ForSome};
ghost use Rattle.sched_base.specs.JobSet.{member};
ghost use Rattle.rcpsp_model.specs.Project.{IsJob};
ghost use Rattle.project_net.specs.Feasible.{IsPlaced};
ghost use Rattle.justify_plans.specs.Order.{ComesFirst, HasNoGreaterRank, IsNext};

use crate::direction::Direction;
use crate::places::{entry_of, finish_of};
use project_net::Project;
use rcpsp_model::Placing;
use sched_base::{Job, JobSet};

/// Whether the rank of the first of two jobs is at most that of the other.
fn ranks_first(project: &Project, job: u8, other: u8) -> bool
    requires job { IsJob project.now job }
    requires other { IsJob project.now other }
    ensures first { OnTrue result (HasNoGreaterRank project.now job other) }
    ensures second { OnFalse result (HasNoGreaterRank project.now other job) }
{
    project.known();
    project.rank(job) <= project.rank(other)
}

/// Whether the first of two jobs is moved no later than the other.
fn comes_first(
    project: &Project,
    places: &[Placing],
    direction: Direction,
    job: u8,
    other: u8,
) -> bool
    requires job { IsJob project.now job }
    requires other { IsJob project.now other }
    requires placed { IsPlaced project.now places.now }
    ensures first { OnTrue result (ComesFirst direction project.now places.now job other) }
    ensures second { OnFalse result (ComesFirst direction project.now places.now other job) }
{
    match direction {
        Direction::Backward => {
            let finish = finish_of(project, places, job);
            let next = finish_of(project, places, other);
            next < finish || (finish == next && ranks_first(project, other, job))
        }
        Direction::Forward => {
            let start = entry_of(project, places, job).start;
            let next = entry_of(project, places, other).start;
            start < next || (start == next && ranks_first(project, job, other))
        }
    }
}

/// Of a first job or none and a second one, the one that is moved first.
fn first_of(
    project: &Project,
    places: &[Placing],
    direction: Direction,
    best: Option<u8>,
    job: u8,
) -> u8
    requires best { ForSome best (IsJob project.now) }
    requires job { IsJob project.now job }
    requires placed { IsPlaced project.now places.now }
    ensures either { (result ≡ job) ⊎ (best ≡ Some result) }
    ensures job { ComesFirst direction project.now places.now result job }
    ensures best { ForSome best (ComesFirst direction project.now places.now result) }
{
    project.known();
    match best {
        Some(other) if comes_first(project, places, direction, other, job) => other,
        _ => job,
    }
}

/// The job that comes first of those that weren't moved yet.
pub fn next_job(
    project: &Project,
    places: &[Placing],
    direction: Direction,
    done: JobSet,
) -> Option<u8>
    requires placed { IsPlaced project.now places.now }
    ensures some { IfSome result (IsNext direction project.now places.now (member done)) }
    ensures none { IfNone result ((j : ℕ) → IsJob project.now j → member done j ≡ true) }
{
    project.known();
    let mut best = None;
    for job in 1..project.jobs() + 1 {
        if !done.has(Job(job)) {
            best = Some(first_of(project, places, direction, best, job));
        }
    }
    best
}
