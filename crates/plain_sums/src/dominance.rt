//! Dominance between two fronts, period by period and pair by pair.

use crate::facts::is_before;
use crate::fronts::{end, finish, has_job, last_start, usage, used};
use precedence_tree::Entry;
use project_net::Project;

/// Whether the fronts have the same jobs.
pub fn have_same_jobs(project: &Project, a: &[Entry], b: &[Entry]) -> bool {
    for done in 0..project.jobs() {
        if has_job(a, done + 1) != has_job(b, done + 1) {
            return false;
        }
    }
    true
}

/// Whether the first front needs no more of any nonrenewable resource.
fn needs_no_more(project: &Project, a: &[Entry], b: &[Entry]) -> bool {
    for done in 0..project.nonrenewables() {
        if used(project, b, done + 1) < used(project, a, done + 1) {
            return false;
        }
    }
    true
}

/// Whether the first front takes no more of a renewable resource in any period from the last start of the second on. Both
/// take nothing once they are done.
fn takes_no_more_of(project: &Project, a: &[Entry], b: &[Entry], resource: u8) -> bool {
    let done = end(project, a).max(end(project, b));
    for period in last_start(b)..done {
        if usage(project, b, resource, period) < usage(project, a, resource, period) {
            return false;
        }
    }
    true
}

/// Whether it does so of all of them.
fn takes_no_more(project: &Project, a: &[Entry], b: &[Entry]) -> bool {
    for done in 0..project.renewables() {
        if !takes_no_more_of(project, a, b, done + 1) {
            return false;
        }
    }
    true
}

/// Whether a job that isn't placed waits for this one.
fn is_waited_for(project: &Project, front: &[Entry], job: u8) -> bool {
    for done in 0..project.jobs() {
        if is_before(project, job, done + 1) && !has_job(front, done + 1) {
            return true;
        }
    }
    false
}

/// Whether the entry's job is done when it is done in the front, or by the front's last start.
fn is_done_in_time(project: &Project, entry: Entry, front: &[Entry]) -> bool {
    for other in front {
        let by = finish(project, *other).max(last_start(front));
        if other.job == entry.job && by < finish(project, entry) {
            return false;
        }
    }
    true
}

/// Whether each job of the first front for which another waits is done in time in it.
fn holds_up_none(project: &Project, a: &[Entry], b: &[Entry]) -> bool {
    for entry in a {
        if is_waited_for(project, a, entry.job) && !is_done_in_time(project, *entry, b) {
            return false;
        }
    }
    true
}

/// Whether the first front dominates the second.
pub fn plainly_dominates(project: &Project, a: &[Entry], b: &[Entry]) -> bool {
    have_same_jobs(project, a, b)
        && last_start(a) <= last_start(b)
        && end(project, a) <= end(project, b)
        && needs_no_more(project, a, b)
        && takes_no_more(project, a, b)
        && holds_up_none(project, a, b)
}
