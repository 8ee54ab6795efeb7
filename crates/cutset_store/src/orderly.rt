//! Whether active jobs that are kept can be compared with those of a front, whatever they were kept for.

ghost use Rattle.std.specs.Prelude.{◌≡◌, ℕ, ◌↔◌, IsTrue, All};
ghost use Rattle.rcpsp_model.specs.Project.{IsJob, IsMode};
ghost use Rattle.precedence_tree.specs.Active.{AreByFinish, IsNamed};
ghost use Rattle.cutset_store.specs.Parts.{AreOrderly};

use precedence_tree::Active;
use project_net::Project;
use rcpsp_model::Entry;

/// Whether the jobs stand in the order of their finishes.
pub fn are_by_finish(active: &[Active]) -> bool
    ensures { IsTrue result ↔ AreByFinish active.now }
{
    let mut latest = 0u32;
    for place in 0..active.len() {
        let finish = active[place].finish;
        if finish < latest {
            return false;
        }
        latest = finish;
    }
    true
}

/// Whether the entry has a job of the project in one of its modes.
fn is_named(project: &Project, entry: Entry) -> bool
    ensures { IsTrue result ↔ (IsJob project.now entry.job × IsMode project.now entry.job entry.mode) }
{
    if entry.job < 1 || project.jobs() < entry.job {
        return false;
    }
    project.has_mode(entry.job, entry.mode)
}

/// Whether each of the jobs is one of the project, in one of its modes.
fn are_named(project: &Project, active: &[Active]) -> bool
    ensures { IsTrue result ↔ All (IsNamed project.now) active.now }
{
    for place in 0..active.len() {
        if !is_named(project, active[place].entry) {
            return false;
        }
    }
    true
}

/// Whether the jobs are as the active ones of any front of the project: jobs of it in their modes, at most 128, in the order
/// of their finishes.
pub fn are_orderly(project: &Project, active: &[Active]) -> bool
    ensures { IsTrue result ↔ AreOrderly project.now active.now }
{
    active.len() <= 128 && are_by_finish(active) && are_named(project, active)
}
