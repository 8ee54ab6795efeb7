//! The children of a front: each job is asked whether it is eligible, each cause is a sum over all jobs, and each start is
//! found by trying period after period.

use crate::facts::{
    after_calendar, budget, capacity, capacity_in, duration, is_before, modes, need, request,
};
use crate::fronts::{end, has_job, ready, rest_need, usage, used};
use precedence_tree::{Entry, Shut};
use project_net::Project;
use sched_base::NoMemory;
use std::alloc::Global;

/// What comes of a front by a job in a mode.
#[derive(Clone, Copy, Debug, PartialEq, Eq)]
pub enum Outcome {
    /// The job is placed at this start.
    Placed(u32),
    /// There is no front, and why.
    Shut(Shut),
}

/// A child of a front, told by its job, its mode, and what comes of it.
#[derive(Clone, Copy, Debug, PartialEq, Eq)]
pub struct PlainChild {
    pub job: u8,
    pub mode: u8,
    pub outcome: Outcome,
}

/// Whether the job isn't placed, and each of its predecessors is.
pub fn is_eligible(project: &Project, front: &[Entry], job: u8) -> bool {
    if has_job(front, job) {
        return false;
    }
    for done in 0..project.jobs() {
        if is_before(project, done + 1, job) && !has_job(front, done + 1) {
            return false;
        }
    }
    true
}

/// The lowest renewable resource of which the mode, which takes time, asks more than there is.
fn lacking(project: &Project, job: u8, mode: u8) -> Option<u8> {
    if duration(project, job, mode) == 0 {
        return None;
    }
    for done in 0..project.renewables() {
        if capacity(project, done + 1) < request(project, job, mode, done + 1) {
            return Some(done + 1);
        }
    }
    None
}

/// The lowest nonrenewable resource whose budget is exceeded by what is placed, this mode, and the least needs of all
/// other jobs.
fn exceeded(project: &Project, front: &[Entry], job: u8, mode: u8) -> Option<u8> {
    for done in 0..project.nonrenewables() {
        let placed = used(project, front, done + 1);
        let own = need(project, job, mode, done + 1);
        let rest = rest_need(project, front, Some(job), done + 1);
        let sum = placed.saturating_add(own).saturating_add(rest);
        if budget(project, done + 1) < sum {
            return Some(done + 1);
        }
    }
    None
}

/// A number of the job in the mode: its duration, then its requests, and then its needs.
fn number(project: &Project, job: u8, mode: u8, place: u8) -> u64 {
    if place == 0 {
        return u64::from(duration(project, job, mode));
    }
    if place <= project.renewables() {
        return request(project, job, mode, place);
    }
    need(project, job, mode, place - project.renewables())
}

/// How many such numbers there are.
fn numbers(project: &Project) -> u8 {
    1 + project.renewables() + project.nonrenewables()
}

/// Whether no number of a mode is above that of the other mode.
fn takes_no_more(project: &Project, job: u8, mode: u8, other: u8) -> bool {
    for place in 0..numbers(project) {
        if number(project, job, other, place) < number(project, job, mode, place) {
            return false;
        }
    }
    true
}

/// Whether a number of a mode is below that of the other mode.
fn takes_less(project: &Project, job: u8, mode: u8, other: u8) -> bool {
    for place in 0..numbers(project) {
        if number(project, job, mode, place) < number(project, job, other, place) {
            return true;
        }
    }
    false
}

/// The lowest mode that takes no more than this one, and takes less or has the lower number.
fn better(project: &Project, job: u8, mode: u8) -> Option<u8> {
    for done in 0..modes(project, job) {
        let other = done + 1;
        let preferred = other < mode || takes_less(project, job, other, mode);
        if preferred && takes_no_more(project, job, other, mode) {
            return Some(other);
        }
    }
    None
}

/// Whether the job fits in the mode beside the entries, on one renewable resource in each period from the start on.
fn fits_on(
    project: &Project,
    front: &[Entry],
    job: u8,
    mode: u8,
    resource: u8,
    start: u32,
) -> bool {
    let own = request(project, job, mode, resource);
    for period in start..start.saturating_add(duration(project, job, mode)) {
        let sum = usage(project, front, resource, period).saturating_add(own);
        if capacity_in(project, resource, period) < sum {
            return false;
        }
    }
    true
}

/// Whether it does so on all of them.
fn fits(project: &Project, front: &[Entry], job: u8, mode: u8, start: u32) -> bool {
    for done in 0..project.renewables() {
        if !fits_on(project, front, job, mode, done + 1, start) {
            return false;
        }
    }
    true
}

/// The first period from when the job is ready in which it can start. When all entries are done and the calendar is over,
/// each mode that can run does.
pub fn least_start(project: &Project, front: &[Entry], job: u8, mode: u8) -> u32 {
    let ready = ready(project, front, job);
    let last = ready.max(end(project, front)).max(after_calendar(project));
    for start in ready..last {
        if fits(project, front, job, mode, start) {
            return start;
        }
    }
    last
}

/// What comes of the front by an eligible job in one of its modes: the first case that applies.
fn outcome_by(project: &Project, front: &[Entry], job: u8, mode: u8) -> Outcome {
    if let Some(resource) = lacking(project, job, mode) {
        return Outcome::Shut(Shut::NoCapacity(resource));
    }
    if let Some(resource) = exceeded(project, front, job, mode) {
        return Outcome::Shut(Shut::NoBudget(resource));
    }
    if let Some(other) = better(project, job, mode) {
        return Outcome::Shut(Shut::Inefficient(other));
    }
    Outcome::Placed(least_start(project, front, job, mode))
}

/// Appends the children by the modes of an eligible job.
fn push_by_mode(
    project: &Project,
    front: &[Entry],
    job: u8,
    all: &mut Vec<PlainChild>,
) -> Result<(), NoMemory> {
    for done in 0..modes(project, job) {
        let mode = done + 1;
        let outcome = outcome_by(project, front, job, mode);
        all.push(PlainChild { job, mode, outcome })?;
    }
    Ok(())
}

/// The children of the front, by ascending job and then by ascending mode.
pub fn plain_children(
    alloc: Global,
    project: &Project,
    front: &[Entry],
) -> Result<Vec<PlainChild>, NoMemory> {
    let mut all = Vec::new(alloc);
    for done in 0..project.jobs() {
        if is_eligible(project, front, done + 1) {
            push_by_mode(project, front, done + 1, &mut all)?;
        }
    }
    Ok(all)
}
