ghost use Rattle.std.specs.Prelude.{◌≡◌, ℕ, ◌≤◌, ◌↔◌, [], All, IsTrue};
ghost use Rattle.rcpsp_model.specs.Project.{IsJob, Before};
ghost use Rattle.precedence_tree.specs.Active.{IsNamed};
ghost use Rattle.precedence_tree.specs.Node.{joined};
ghost use Rattle.cutset_store.specs.Parts.{HasFinish, InTime, HoldsUpNone};

use precedence_tree::Active;
use project_net::Project;

/// Whether one of the jobs is this one, and finishes at the period or later.
fn has_finish(active: &[Active], job: u8, from: u32) -> bool
    ensures { IsTrue result ↔ HasFinish active.now job from }
{
    for place in 0..active.len() {
        let other = active[place];
        if other.entry.job == job && from <= other.finish {
            return true;
        }
    }
    false
}

/// The same of one job that there may be.
fn newest_has_finish(newest: Option<Active>, job: u8, from: u32) -> bool
    ensures { IsTrue result ↔ HasFinish (joined newest []) job from }
{
    match newest {
        Some(active) => has_finish(&[active], job, from),
        None => has_finish(&[], job, from),
    }
}

/// Whether no job waits for this one.
fn is_last(project: &Project, job: u8) -> bool
    requires { IsJob project.now job }
    ensures { IsTrue result ↔ ((j : ℕ) → Before project.now job j → ⊥) }
{
    project.known();
    project.succs(job).next_after(0).is_none()
}

/// Whether the job is done by the period, no job waits for it, or it is done no later among the others.
fn is_in_time(
    project: &Project,
    active: Active,
    newest: Option<Active>,
    older: &[Active],
    last: u32,
) -> bool
    requires { IsNamed project.now active }
    ensures { IsTrue result ↔ InTime project.now (joined newest older.now) last active }
{
    let job = active.entry.job;
    if active.finish <= last || is_last(project, job) {
        return true;
    }
    newest_has_finish(newest, job, active.finish) || has_finish(older, job, active.finish)
}

/// Whether no job waits longer for one of the jobs than among the others, from the period on.
pub fn holds_up_none(
    project: &Project,
    active: &[Active],
    newest: Option<Active>,
    older: &[Active],
    last: u32,
) -> bool
    requires { All (IsNamed project.now) active.now }
    ensures { IsTrue result ↔ HoldsUpNone project.now active.now (joined newest older.now) last }
{
    for place in 0..active.len() {
        if !is_in_time(project, active[place], newest, older, last) {
            return false;
        }
    }
    true
}
