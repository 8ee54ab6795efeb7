//! Sums over all entries of a front.

use crate::facts::{duration, is_before, least_need, need, request};
use precedence_tree::Entry;
use project_net::Project;

/// The first period after the entry.
pub fn finish(project: &Project, entry: Entry) -> u32 {
    entry
        .start
        .saturating_add(duration(project, entry.job, entry.mode))
}

/// Whether the job is placed.
pub fn has_job(front: &[Entry], job: u8) -> bool {
    front.iter().any(|entry| entry.job == job)
}

/// The start of the last entry, 0 where there is none.
pub fn last_start(front: &[Entry]) -> u32 {
    let mut last = 0;
    for entry in front {
        last = entry.start;
    }
    last
}

/// The greatest finish, 0 where there is none.
pub fn end(project: &Project, front: &[Entry]) -> u32 {
    let mut end = 0u32;
    for entry in front {
        end = end.max(finish(project, *entry));
    }
    end
}

/// What the entries take of a renewable resource in a period.
pub fn usage(project: &Project, front: &[Entry], resource: u8, period: u32) -> u64 {
    let mut sum = 0u64;
    for entry in front {
        if entry.start <= period && period < finish(project, *entry) {
            sum = sum.saturating_add(request(project, entry.job, entry.mode, resource));
        }
    }
    sum
}

/// What the entries need of a nonrenewable resource.
pub fn used(project: &Project, front: &[Entry], resource: u8) -> u64 {
    let mut sum = 0u64;
    for entry in front {
        sum = sum.saturating_add(need(project, entry.job, entry.mode, resource));
    }
    sum
}

/// The least that the jobs without an entry need of a nonrenewable resource, all or all but one.
pub fn rest_need(project: &Project, front: &[Entry], but: Option<u8>, resource: u8) -> u64 {
    let mut sum = 0u64;
    for done in 0..project.jobs() {
        let job = done + 1;
        if Some(job) != but && !has_job(front, job) {
            sum = sum.saturating_add(least_need(project, job, resource));
        }
    }
    sum
}

/// The greatest of the last start and the finishes of the placed predecessors.
pub fn ready(project: &Project, front: &[Entry], job: u8) -> u32 {
    let mut ready = last_start(front);
    for entry in front {
        if is_before(project, entry.job, job) {
            ready = ready.max(finish(project, *entry));
        }
    }
    ready
}
