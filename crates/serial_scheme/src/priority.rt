ghost use Rattle.std.specs.Prelude.{◌≡◌, ℕ, ◌↔◌, ◌≤◌, true, IsTrue, IfSome, IfNone};
ghost use Rattle.sched_base.specs.JobSet.{member};
ghost use Rattle.rcpsp_model.specs.Project.{IsJob};
ghost use Rattle.rcpsp_model.specs.Schedule.{AreOf};
ghost use Rattle.project_net.specs.Order.{IsFree};
ghost use Rattle.serial_scheme.specs.Priority.{IsMoreUrgent, IsMostUrgent, done_at};

use project_net::Project;
use rcpsp_model::Entry;
use sched_base::{Job, JobSet};

/// Whether the job isn't placed and each of its predecessors is.
fn is_open(project: &Project, placed: JobSet, job: u8) -> bool
    requires { IsJob project.now job }
    ensures { IsTrue result ↔ IsFree project.now (member placed) job }
{
    project.known();
    !placed.has(Job(job)) && project.preds(job).is_within(placed)
}

/// Of two jobs the one of greater tail, the first on a tie.
fn more_urgent(project: &Project, best: Option<u8>, job: u8) -> Option<u8>
    requires best { IfSome best (IsJob project.now) }
    requires job { IsJob project.now job }
    ensures { IsMoreUrgent project.now best job result }
{
    let Some(other) = best else {
        return Some(job);
    };
    let longest = project.tail(other);
    if project.tail(job) <= longest {
        best
    } else {
        Some(job)
    }
}

/// The job of greatest tail, the lowest on a tie, among those that aren't placed and whose predecessors are.
pub fn most_urgent(project: &Project, placed: JobSet) -> Option<u8>
    ensures some { IfSome result (IsMostUrgent project.now (member placed)) }
    ensures none { IfNone result ((j : ℕ) → IsFree project.now (member placed) j → ⊥) }
{
    project.known();
    let mut best = None;
    for job in 1..project.jobs() + 1 {
        if is_open(project, placed, job) {
            best = more_urgent(project, best, job);
        }
    }
    best
}

/// The greatest finish of the job's predecessors.
pub fn predecessors_done(project: &Project, entries: &[Entry], job: u8) -> u32
    requires entries { AreOf project.now entries.now }
    requires job { IsJob project.now job }
    ensures { result ≡ done_at project.now entries.now job }
{
    project.known();
    let predecessors = project.preds(job);
    let mut done = 0;
    for entry in entries {
        if predecessors.has(Job(entry.job)) {
            done = done.max(entry.start + project.duration(entry.job, entry.mode));
        }
    }
    done
}
