//! The bounds of a front: the longest of its chains by longer and longer ones, and each work bound by summing up what there
//! is period by period.

use crate::facts::{budget, capacity, capacity_in, is_before, least_duration, least_work, request};
use crate::fronts::{end, finish, has_job, last_start, ready, rest_need, used};
use precedence_tree::Entry;
use project_net::Project;
use sched_base::NoMemory;
use std::alloc::Global;

/// Where a work bound is greater, this is given in its place.
const MOST: u32 = 999_999_999;

/// The number of a job in a list by job.
fn number_of(numbers: &[u64], job: u8) -> u64 {
    numbers.get(usize::from(job)).copied().unwrap_or(0)
}

/// The greatest number of the unplaced successors of a job.
fn greatest_after(project: &Project, front: &[Entry], numbers: &[u64], job: u8) -> u64 {
    let mut greatest = 0u64;
    for done in 0..project.jobs() {
        let next = done + 1;
        if is_before(project, job, next) && !has_job(front, next) {
            greatest = greatest.max(number_of(numbers, next));
        }
    }
    greatest
}

/// By job, the longest chain of unplaced jobs that begins with it and has at most one job more than those whose lengths
/// these are; 0 for a placed job.
fn one_job_longer(
    alloc: Global,
    project: &Project,
    front: &[Entry],
    lengths: &[u64],
) -> Result<Vec<u64>, NoMemory> {
    let mut longer = Vec::new(alloc);
    longer.push(0)?;
    for done in 0..project.jobs() {
        let job = done + 1;
        let mut length = 0;
        if !has_job(front, job) {
            let after = greatest_after(project, front, lengths, job);
            length = least_duration(project, job).saturating_add(after);
        }
        longer.push(length)?;
    }
    Ok(longer)
}

/// By job, the longest chain of unplaced jobs that begins with it: one job longer as long as that makes a difference, and no
/// chain has more jobs than there are.
fn longest(alloc: Global, project: &Project, front: &[Entry]) -> Result<Vec<u64>, NoMemory> {
    let mut lengths = Vec::new(alloc);
    for _ in 0..project.jobs() {
        let longer = one_job_longer(alloc, project, front, lengths.as_slice())?;
        if longer.as_slice() == lengths.as_slice() {
            break;
        }
        lengths = longer;
    }
    Ok(lengths)
}

/// The greatest of the front's end and, over each chain of unplaced jobs, when its first job is ready plus its length.
pub fn plain_tail_bound(
    alloc: Global,
    project: &Project,
    front: &[Entry],
) -> Result<u64, NoMemory> {
    let lengths = longest(alloc, project, front)?;
    let mut bound = u64::from(end(project, front));
    for done in 0..project.jobs() {
        let job = done + 1;
        if !has_job(front, job) {
            let ready = u64::from(ready(project, front, job));
            bound = bound.max(ready.saturating_add(number_of(lengths.as_slice(), job)));
        }
    }
    Ok(bound)
}

/// What an entry still asks for of a renewable resource from the period on, by which it has begun.
fn work_from(project: &Project, entry: Entry, resource: u8, period: u32) -> u64 {
    let periods = u64::from(finish(project, entry).saturating_sub(period));
    periods.saturating_mul(request(project, entry.job, entry.mode, resource))
}

/// The work on a renewable resource that is left from the last start on.
fn rest_work(project: &Project, front: &[Entry], resource: u8) -> u64 {
    let last = last_start(front);
    let mut sum = 0u64;
    for entry in front {
        sum = sum.saturating_add(work_from(project, *entry, resource, last));
    }
    sum.saturating_add(open_work(project, front, resource))
}

/// The least work of the unplaced jobs on a renewable resource.
fn open_work(project: &Project, front: &[Entry], resource: u8) -> u64 {
    let mut sum = 0u64;
    for done in 0..project.jobs() {
        if !has_job(front, done + 1) {
            sum = sum.saturating_add(least_work(project, done + 1, resource));
        }
    }
    sum
}

/// The first period by which a renewable resource, from the last start on, has held the work that is left; none where its
/// capacity is 0.
pub fn plain_work_bound(project: &Project, front: &[Entry], resource: u8) -> Option<u32> {
    if capacity(project, resource) == 0 {
        return None;
    }
    let rest = rest_work(project, front, resource);
    let mut held = 0u64;
    for period in last_start(front)..MOST {
        if rest <= held {
            return Some(period);
        }
        held = held.saturating_add(capacity_in(project, resource, period));
    }
    Some(MOST)
}

/// The greatest of the tail bound and all work bounds.
pub fn plain_lower(project: &Project, front: &[Entry], tail_bound: u64) -> u64 {
    let mut lower = tail_bound;
    for done in 0..project.renewables() {
        if let Some(bound) = plain_work_bound(project, front, done + 1) {
            lower = lower.max(u64::from(bound));
        }
    }
    lower
}

/// The lowest nonrenewable resource of which the placed jobs, and the others at their least, need more than the budget.
pub fn plain_budget_gap(project: &Project, front: &[Entry]) -> Option<u8> {
    for done in 0..project.nonrenewables() {
        let placed = used(project, front, done + 1);
        let rest = rest_need(project, front, None, done + 1);
        if budget(project, done + 1) < placed.saturating_add(rest) {
            return Some(done + 1);
        }
    }
    None
}
