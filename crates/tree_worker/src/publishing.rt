ghost use Rattle.std.specs.Prelude.{◌≡◌, ◌≤◌, ◌<◌, vec_len, vec_capacity};
ghost use Rattle.tree_worker.specs.Publishes.{Publishes};

use cutset_store::CutRecord;
use search_table::{Pass, RoundTable};
use shared_rows::{Cells, Note, Rows};

/// Puts a record into the next cell of the pass's row and keeps the note of it, unless the worker is stopped.
///
/// Whether it is stopped from now on: it was, or the record came back.
pub fn publish<C: Cells<CutRecord>>(
    stopped: bool,
    rows: &Rows<CutRecord>,
    table: &RoundTable,
    pass: &mut Pass,
    cells: &mut C,
    shown: Box<CutRecord>,
    notes: &mut Vec<Note<CutRecord>>,
) -> bool
    requires table { pass.old.table ≡ table.now }
    requires workers { pass.old.view.terms.workers ≡ rows.now.workers }
    requires worker { 1 ≤ pass.old.view.number }
    requires room { pass.old.view.own < rows.now.cells }
    requires spare { vec_len notes.old < vec_capacity notes.old }
    ensures table { pass.new.table ≡ pass.old.table }
    ensures publishes { Publishes rows.now shown.value stopped result (C.refused cells.old) (C.refused cells.new) pass.old.view pass.new.view notes.old.items notes.new.items }
    ensures refused_later { C.refused cells.old ≤ C.refused cells.new }
    ensures empty_later { C.empty cells.old ≤ C.empty cells.new }
{
    if stopped {
        return true;
    }
    match rows.put(table, pass, cells, shown) {
        Ok(note) => {
            notes.push_reserved(note);
            false
        }
        Err(_) => true,
    }
}
