ghost use Rattle.std.specs.Prelude.{◌≡◌, ℕ, ◌≤◌, ◌↔◌, ◌⊎◌, true, IsTrue};
ghost use Rattle.sched_base.specs.JobSet.{member};
ghost use Rattle.rcpsp_model.specs.Project.{IsJob};
ghost use Rattle.precedence_tree.specs.Frontier.{IsOpenBeside, Stays, Opens};

use project_net::Project;
use sched_base::{Job, JobSet};

/// Whether the job isn't placed and each of its predecessors is.
fn is_open(project: &Project, placed: JobSet, job: u8) -> bool
    requires { IsJob project.now job }
    ensures { IsTrue result ↔ IsOpenBeside project.now placed job }
{
    project.known();
    if placed.has(Job(job)) {
        return false;
    }
    project.preds(job).is_within(placed)
}

/// The jobs without a predecessor, and any others that the placed jobs leave open.
pub fn open_jobs(project: &Project, placed: JobSet) -> JobSet
    ensures { (j : ℕ) → 1 ≤ j → (member result j ≡ true) ↔ IsOpenBeside project.now placed j }
{
    let mut open = JobSet::empty();
    for done in 0..project.jobs() {
        if is_open(project, placed, done + 1) {
            open = open.with(Job(done + 1));
        }
    }
    open
}

/// The set without the job.
fn without(jobs: JobSet, job: u8) -> JobSet
    requires low { 1 ≤ job }
    requires high { job ≤ 128 }
    ensures { (j : ℕ) → 1 ≤ j → (member result j ≡ true) ↔ Stays jobs job j }
{
    JobSet(jobs.0 & !(1 << (job - 1)))
}

/// The successors of the job that are open beside the placed jobs.
fn open_behind(project: &Project, placed: JobSet, job: u8) -> JobSet
    requires { IsJob project.now job }
    ensures { (j : ℕ) → 1 ≤ j → (member result j ≡ true) ↔ Opens project.now placed job j }
{
    project.known();
    let successors = project.succs(job);
    let mut open = JobSet::empty();
    let mut last = 0;
    while let Some(next) = successors.next_after(last) {
        if is_open(project, placed, next.0) {
            open = open.with(next);
        }
        last = next.0;
    }
    open
}

/// The open jobs after one of them is placed: the others, and its successors that are open beside the placed jobs.
///
/// What is open stays so until it is placed, so that the successors alone are asked.
pub fn open_after(project: &Project, eligible: JobSet, placed: JobSet, job: u8) -> JobSet
    requires { IsJob project.now job }
    ensures { (j : ℕ) → 1 ≤ j → (member result j ≡ true) ↔ (Stays eligible job j ⊎ Opens project.now placed job j) }
{
    project.known();
    let behind = open_behind(project, placed, job);
    without(eligible, job).union(behind)
}
