//! Citations, judged when all lines are known.

ghost use Rattle.std.specs.Prelude.{◌≡◌, ℕ, ◌<◌, ◌↔◌, List as Items, All, length, slice_index, IsTrue, IfSome, IfNone, IfOk};
ghost use Rattle.std.specs.List.{AllZip};
ghost use Rattle.rcpsp_model.specs.Dominance.{Dominates};
ghost use Rattle.precedence_tree.specs.Base.{IsBaseOf};
ghost use Rattle.log_checker.specs.Choices.{IsTurnOf};
ghost use Rattle.log_checker.specs.Walk.{Citation, IsCiting, IsKeptAs};
ghost use Rattle.log_checker.specs.Citations.{numbers_of, Ascends, IsChildOf, IsServedBy, IsFirstBad};

use crate::walk::{Citing, Grown};
use cutset_store::{CutRecord, dominates};
use precedence_tree::{Child, child_of};
use project_net::Project;
use sched_base::NoMemory;

/// The place of the expanded line with this number: the numbers ascend, and it is looked for by halves.
fn place_of(grown: &[Grown], line: u32) -> Option<usize>
    ensures within { IfSome result (λ i. i < length grown.now) }
    ensures found { IfSome result (λ i. slice_index (numbers_of grown.now) i ≡ line) }
    ensures none { IfNone result (Ascends (numbers_of grown.now) → (i : ℕ) → i < length grown.now → slice_index (numbers_of grown.now) i ≡ line → ⊥) }
{
    let mut low = 0;
    let mut high = grown.len();
    while low < high {
        let middle = low + (high - low) / 2;
        let there = grown[middle].line;
        if there == line {
            return Some(middle);
        }
        if there < line {
            low = middle + 1;
        } else {
            high = middle;
        }
    }
    None
}

/// Whether the front of the expanded line in a place dominates that of a line that cites it, which is made anew.
fn dominates_at(
    project: &Project,
    cited: &Grown,
    parent: &Grown,
    citing: Citing,
) -> Result<bool, NoMemory>
    requires cited { IsBaseOf project.now cited.now.front }
    requires parent { IsBaseOf project.now parent.now.front }
    requires turn { IsTurnOf project.now parent.now.front.front citing.turn }
    ensures { IfOk result (λ yes. (c : Citation) → IsChildOf project.now parent.now.front.front citing.turn c.front → IsTrue yes ↔ Dominates project.now cited.now.front.front c.front) }
{
    match child_of(project, &parent.front, citing.turn.job, citing.turn.mode)? {
        Child::Shut { .. } => Ok(false),
        Child::Placed(node) => {
            let record = CutRecord::of_expanded(&cited.front)?;
            Ok(dominates(project, &record, &node))
        }
    }
}

/// Whether the line is served by the one that it cites.
fn is_served(project: &Project, grown: &[Grown], citing: Citing) -> Result<bool, NoMemory>
    requires bases { All (λ g. IsBaseOf project.now g.front) grown.now }
    requires citing { IsCiting project.now grown.now citing }
    ensures { IfOk result (λ yes. (c : Citation) → IsKeptAs project.now grown.now c citing → Ascends (numbers_of grown.now) → IsTrue yes ↔ IsServedBy project.now grown.now c) }
{
    let parent = &grown[citing.parent as usize];
    match place_of(grown, citing.cited) {
        Some(place) => dominates_at(project, &grown[place], parent, citing),
        None => Ok(false),
    }
}

/// The number of the first of these lines that isn't served.
pub fn first_unserved(
    project: &Project,
    grown: &[Grown],
    citing: &[Citing],
) -> Result<Option<u32>, NoMemory>
    requires bases { All (λ g. IsBaseOf project.now g.front) grown.now }
    requires citing { All (IsCiting project.now grown.now) citing.now }
    ensures { IfOk result (λ n. (cs : Items Citation) → AllZip (IsKeptAs project.now grown.now) cs citing.now → Ascends (numbers_of grown.now) → IsFirstBad project.now grown.now cs n) }
{
    for one in citing {
        if !is_served(project, grown, *one)? {
            return Ok(Some(one.line));
        }
    }
    Ok(None)
}
