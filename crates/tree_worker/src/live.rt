ghost use Rattle.std.specs.Prelude.{◌≡◌, ◌≤◌, ◌⊎◌, Some, IsSome, IfSome};
ghost use Rattle.std.specs.Bool.{OnTrue};
ghost use Rattle.precedence_tree.specs.Base.{IsBaseOf};
ghost use Rattle.precedence_tree.specs.Node.{StandsFor};
ghost use Rattle.tree_worker.specs.Live.{IsLiveRecord, Listens, IsCited};

use cutset_store::{CutRecord, would_dominate};
use precedence_tree::Node;
use project_net::Project;
use search_table::{Pass, RoundTable};
use shared_rows::{Cells, Look, Note, Rows, agree};
use std::alloc::Global;

/// A live record by which a node was closed.
#[derive(Drop)]
pub struct LiveNote {
    /// The worker that published it.
    pub worker: u32,
    /// The place of its cell in the row of that worker, from 0.
    pub place: u64,
    /// A note of the cell, which knows the record.
    pub note: Note<CutRecord>,
}

/// What was found of a live record.
#[derive(Clone, Copy, Debug, PartialEq, Eq)]
pub enum Judgement {
    /// It wasn't judged yet.
    Open,
    /// All that it keeps is that of a front of the project.
    Sound,
    /// It isn't.
    Unsound,
}

/// A record that another worker published, as it was taken in.
#[derive(Drop)]
pub struct LiveRecord {
    pub worker: u32,
    /// The place of its cell in the row of the worker, from 0.
    pub place: u64,
    /// The last start of its front.
    pub last: u32,
    /// The end of its front.
    pub end: u32,
    pub judgement: Judgement,
    /// The number of the record of the same jobs that was taken in before it.
    pub before: Option<usize>,
    /// A note of its cell, which knows it.
    pub note: Note<CutRecord>,
}

/// Judges a record, unless that was done before; it stays open where memory is wanting.
fn judged(alloc: Global, project: &Project, shown: &CutRecord, judgement: Judgement) -> Judgement
    ensures { result ≡ Judgement.Sound → (judgement ≡ Judgement.Sound) ⊎ IsBaseOf project.now shown.now }
{
    if judgement != Judgement::Open {
        return judgement;
    }
    match shown.keeps_of(alloc, project) {
        Ok(true) => Judgement::Sound,
        Ok(false) => Judgement::Unsound,
        Err(_) => Judgement::Open,
    }
}

/// Whether a live record, as it is read now, is one of a front of the project. It is judged once.
fn is_sound(
    alloc: Global,
    project: &Project,
    live: &mut LiveRecord,
    shown: &CutRecord,
    note: &mut Note<CutRecord>,
) -> bool
    requires cell { live.old.note.cell ≡ note.old.cell }
    requires first { IsSome live.old.note.known }
    requires known { note.old.known ≡ Some shown.now }
    requires sound { live.old.judgement ≡ Judgement.Sound → IfSome live.old.note.known (IsBaseOf project.now) }
    ensures base { OnTrue result (IsBaseOf project.now shown.now) }
    ensures note { note.new ≡ note.old }
    ensures live { live.new ≡ record live.old { judgement = live.new.judgement } }
    ensures sound { live.new.judgement ≡ Judgement.Sound → IfSome live.old.note.known (IsBaseOf project.now) }
{
    agree(&mut live.note, note);
    live.judgement = judged(alloc, project, shown, live.judgement);
    live.judgement == Judgement::Sound
}

/// Reads a live record once more by its place, and gives the note of that read where its front dominates that of the node.
///
/// It is looked at only where its last start and its end are no later than the node's, and judged only where it would
/// dominate: that goes over its front entry by entry, and few of the records that are looked at close a node.
pub fn citation<C: Cells<CutRecord>>(
    alloc: Global,
    project: &Project,
    rows: &Rows<CutRecord>,
    table: &RoundTable,
    pass: &mut Pass,
    cells: &mut C,
    live: &mut LiveRecord,
    node: &Node,
) -> Option<LiveNote>
    requires table { pass.old.table ≡ table.now }
    requires workers { pass.old.view.terms.workers ≡ rows.now.workers }
    requires live { IsLiveRecord project.now rows.now pass.old.view.number live.old }
    requires node { StandsFor project.now node.now }
    ensures table { pass.new.table ≡ pass.old.table }
    ensures listens { Listens pass.old.view pass.new.view }
    ensures live { IsLiveRecord project.now rows.now pass.old.view.number live.new }
    ensures cited { IfSome result (IsCited project.now rows.now pass.new.view node.now.front) }
    ensures refused_later { C.refused cells.old ≤ C.refused cells.new }
    ensures empty_later { C.empty cells.old ≤ C.empty cells.new }
{
    if live.last > node.last() || live.end > node.end() || live.judgement == Judgement::Unsound {
        return None;
    }
    match rows.read(table, pass, cells, live.worker, live.place) {
        Look::Found(shown, mut note) => {
            if !would_dominate(project, shown, node) {
                return None;
            }
            if !is_sound(alloc, project, live, shown, &mut note) {
                return None;
            }
            Some(LiveNote {
                worker: live.worker,
                place: live.place,
                note,
            })
        }
        Look::Beyond(_) | Look::Unset => None,
    }
}
