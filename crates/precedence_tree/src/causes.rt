ghost use Rattle.std.specs.Prelude.{◌≡◌, ℕ, ◌≤◌, List, IfSome, IfNone};
ghost use Rattle.rcpsp_model.specs.declared.parts.Entry.{Entry};
ghost use Rattle.rcpsp_model.specs.Project.{IsJob, IsMode};
ghost use Rattle.rcpsp_model.specs.Tree.{IsShut};
ghost use Rattle.precedence_tree.specs.Needs.{AreBefore};
ghost use Rattle.precedence_tree.specs.Children.{IsOpen};

use crate::budgets::gap_with;
use crate::needs::Needs;
use project_net::Project;
use rcpsp_model::Shut;

/// The first cause to shut the child by an eligible job in a mode, if one applies, by the needs of the front before it.
pub fn cause_to_shut(project: &Project, needs: &Needs, job: u8, mode: u8) -> Option<Shut>
    requires job { IsJob project.now job }
    requires mode { IsMode project.now job mode }
    ensures some { (F : List Entry) → AreBefore project.now F needs.now job → IfSome result (IsShut project.now F job mode) }
    ensures none { (F : List Entry) → AreBefore project.now F needs.now job → IfNone result (IsOpen project.now F job mode) }
{
    if let Some(resource) = project.lacking(job, mode) {
        return Some(Shut::NoCapacity(resource));
    }
    if let Some(resource) = gap_with(project, needs, job, mode) {
        return Some(Shut::NoBudget(resource));
    }
    match project.inefficient(job, mode) {
        Some(other) => Some(Shut::Inefficient(other)),
        None => None,
    }
}
