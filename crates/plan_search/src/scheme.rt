//! The serial schedule generation scheme, forth and back: job by job, each at the least or the greatest start at which it has
//! room beside those placed before (Kelley 1963; Valls, Ballestin and Quintanilla 2005).

ghost use Rattle.std.specs.Prelude.{◌≡◌, ◌+◌, ◌*◌, ◌≤◌, length, vec_len, vec_capacity, IfSome};
ghost use Rattle.rcpsp_model.specs.Project.{IsJob, job_count};
ghost use Rattle.project_net.specs.Feasible.{IsPlaced};

use crate::places::{finish_of, place_of, put};
use crate::room::Room;
use project_net::Project;
use rcpsp_model::Placing;
use sched_base::{Job, JobSet};

/// The latest start that a plan may have.
const LAST_START: u32 = 1_290_000;

/// The way in which the jobs are placed.
#[derive(Clone, Copy, Debug, PartialEq, Eq)]
pub enum Direction {
    /// Each as early as it can stand, after its predecessors.
    Forward,
    /// Each as late as it can stand, before its successors and by an end.
    Backward { end: u32 },
}

/// Whether the job isn't placed and all that have to be placed before it are.
fn is_open(project: &Project, direction: Direction, placed: JobSet, job: u8) -> bool
    requires { IsJob project.now job }
{
    project.known();
    let before = match direction {
        Direction::Forward => project.preds(job),
        Direction::Backward { .. } => project.succs(job),
    };
    !placed.has(Job(job)) && before.is_within(placed)
}

/// Of a first job or none and a second one, the one of the lesser key, the first on a tie.
fn first_of(project: &Project, keys: &[u32], best: Option<u8>, job: u8) -> u8
    requires best { IfSome best (IsJob project.now) }
    requires job { IsJob project.now job }
    requires keys { length keys.now ≡ job_count project.now }
    ensures { IsJob project.now result }
{
    let _ = project;
    match best {
        Some(other) if keys[other as usize - 1] <= keys[job as usize - 1] => other,
        _ => job,
    }
}

/// The job of least key among those that can be placed next, the lowest on a tie.
fn next_job(project: &Project, keys: &[u32], direction: Direction, placed: JobSet) -> Option<u8>
    requires { length keys.now ≡ job_count project.now }
    ensures { IfSome result (IsJob project.now) }
{
    project.known();
    let mut best = None;
    for job in 1..project.jobs() + 1 {
        if is_open(project, direction, placed, job) {
            best = Some(first_of(project, keys, best, job));
        }
    }
    best
}

/// The greatest finish of a job's predecessors.
fn earliest_start(project: &Project, places: &[Placing], job: u8) -> u32
    requires job { IsJob project.now job }
    requires placed { IsPlaced project.now places.now }
{
    project.known();
    let predecessors = project.preds(job);
    let mut earliest = 0;
    for done in 0..project.jobs() {
        if predecessors.has(Job(done + 1)) {
            earliest = earliest.max(finish_of(project, places, done + 1));
        }
    }
    earliest
}

/// The least of an end and the starts of a job's successors.
fn latest_finish(project: &Project, places: &[Placing], job: u8, end: u32) -> u32
    requires job { IsJob project.now job }
    requires placed { IsPlaced project.now places.now }
{
    project.known();
    let successors = project.succs(job);
    let mut latest = end;
    for done in 0..project.jobs() {
        if successors.has(Job(done + 1)) {
            latest = latest.min(place_of(project, places, done + 1).start);
        }
    }
    latest
}

/// Where the job is placed, with the mode that it has, if there is room for it.
fn start_of(
    project: &Project,
    places: &[Placing],
    room: &Room,
    direction: Direction,
    job: u8,
) -> Option<u32>
    requires job { IsJob project.now job }
    requires placed { IsPlaced project.now places.now }
{
    let mode = place_of(project, places, job).mode;
    let duration = project.duration(job, mode);
    let requests = project.requests(job, mode);
    match direction {
        Direction::Forward => {
            let from = earliest_start(project, places, job);
            room.first_fit(requests, duration, from)
        }
        Direction::Backward { end } => {
            let until = latest_finish(project, places, job, end);
            room.last_fit(requests, duration, until)
        }
    }
}

/// Places the job, and says whether it could.
fn place_job(
    project: &Project,
    places: &mut [Placing],
    room: &mut Room,
    direction: Direction,
    job: u8,
) -> bool
    requires job { IsJob project.now job }
    requires placed { IsPlaced project.now places.old }
    requires spare { vec_len room.old.spans + 2 ≤ vec_capacity room.old.spans }
    ensures placed { IsPlaced project.now places.new }
    ensures length { vec_len room.new.spans ≤ vec_len room.old.spans + 2 }
    ensures capacity { vec_capacity room.old.spans ≤ vec_capacity room.new.spans }
{
    let mode = place_of(project, places, job).mode;
    let Some(start) = start_of(project, places, room, direction, job) else {
        return false;
    };
    if start > LAST_START {
        return false;
    }
    put(project, places, job, Placing { mode, start });
    let finish = start + project.duration(job, mode);
    room.take(start, finish, project.requests(job, mode));
    true
}

/// Places all jobs with the modes that they have, those of lesser key first as far as the order allows, and says whether it
/// could. The room is what is left of the resources before. It takes no memory.
pub fn place_all(
    project: &Project,
    places: &mut [Placing],
    keys: &[u32],
    room: &mut Room,
    direction: Direction,
) -> bool
    requires placed { IsPlaced project.now places.old }
    requires keys { length keys.now ≡ job_count project.now }
    requires spare { vec_len room.old.spans + 2 * job_count project.now ≤ vec_capacity room.old.spans }
    ensures placed { IsPlaced project.now places.new }
    ensures capacity { vec_capacity room.old.spans ≤ vec_capacity room.new.spans }
{
    project.known();
    let mut placed = JobSet::empty();
    'jobs: for _ in 0..project.jobs() {
        let Some(job) = next_job(project, keys, direction, placed) else {
            return false;
        };
        if !place_job(project, places, room, direction, job) {
            return false;
        }
        placed = placed.with(Job(job));
    }
    true
}
