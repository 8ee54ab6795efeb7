ghost use Rattle.std.specs.Prelude.{◌≡◌, ◌≤◌, ◌<◌, Some, All, length, vec_len, IfOk, IfErr, OnOk, OnErr};
ghost use Rattle.once_cell.specs.Once.{cell_name};
ghost use Rattle.sched_base.specs.Outside.{Rose};
ghost use Rattle.search_table.specs.Counts.{seen_of};
ghost use Rattle.search_table.specs.Views.{with_publication, with_count};
ghost use Rattle.shared_rows.specs.Rows.{cell_at, IsNoteOf, AreCells};

use crate::cells::Cells;
use once_cell::race::{Note, OnceBox};
use sched_base::NoMemory;
use search_table::{Pass, RoundTable};
use std::alloc::Global;
use std::marker::Model;

/// A row of cells for each worker, in which its pass sets one after the other. The workers share it by reference.
///
/// Each row is a block of its own, so that what one worker sets is on no cache line of another's row but at its ends.
#[derive(Drop)]
pub struct Rows<T> {
    rows: Vec<Vec<OnceBox<T>>>,
    workers: u32,
    cells: u32,
}

impl<T> Model for Rows<T> {
    ghost use Rattle.shared_rows.specs.Rows.{RowsState, names_in, AreCells};

    ghost Value = { RowsState };

    ghost view = { λ r. record { workers = r.workers; cells = r.cells; names = names_in r.rows.items } };

    ghost invariant = { λ r. AreCells r.workers r.cells r.rows.items };
}

/// What a read of a row tells.
#[derive(Drop)]
pub enum Look<'a, T> {
    /// The value of the cell, and a note that knows it.
    Found(&'a T, Note<T>),
    /// The cell isn't published: the worker has published so many.
    Beyond(u64),
    /// The cell is published, and seemed empty.
    Unset,
}

/// A row of empty cells.
fn row_of<T: Drop>(alloc: Global, cells: u32) -> Result<Vec<OnceBox<T>>, NoMemory>
    ensures { IfOk result (λ row. vec_len row ≡ cells) }
{
    let mut row = Vec::with_capacity(alloc, cells as usize)?;
    for _ in 0..cells {
        row.push(OnceBox::new(alloc))?;
    }
    Ok(row)
}

/// A row of empty cells for each worker.
fn rows_of<T: Drop>(
    alloc: Global,
    workers: u32,
    cells: u32,
) -> Result<Vec<Vec<OnceBox<T>>>, NoMemory>
    ensures { IfOk result (λ rows. AreCells workers cells rows.items) }
{
    let mut rows = Vec::with_capacity(alloc, workers as usize)?;
    for _ in 0..workers {
        rows.push(row_of(alloc, cells)?)?;
    }
    Ok(rows)
}

impl<T: Drop> Rows<T> {
    ghost use Rattle.shared_rows.specs.Looked.{Looked};

    /// Rows of empty cells: so many rows, and so many cells in each. Only want of memory is an error.
    pub fn new(alloc: Global, workers: u32, cells: u32) -> Result<Self, NoMemory>
        ensures workers { IfOk result (λ rows. rows.workers ≡ workers) }
        ensures cells { IfOk result (λ rows. rows.cells ≡ cells) }
    {
        let rows = rows_of(alloc, workers, cells)?;
        Ok(Rows {
            rows,
            workers,
            cells,
        })
    }

    /// How many workers have a row.
    pub fn workers(&self) -> u32
        ensures { result ≡ self.now.workers }
    {
        self.workers
    }

    /// How many cells each row has.
    pub fn cells(&self) -> u32
        ensures { result ≡ self.now.cells }
    {
        self.cells
    }

    /// The cell of a worker at a place of its row, from 0.
    fn cell(&self, worker: u32, place: u64) -> &OnceBox<T>
        requires low { 1 ≤ worker }
        requires high { worker ≤ self.now.workers }
        requires place { place < self.now.cells }
        ensures name { cell_name result.now ≡ cell_at self.now worker place }
        ensures few { self.now.cells ≤ 4294967295 }
    {
        let row = &self.rows[worker as usize - 1];
        &row[place as usize]
    }

    /// Sets the pass's own next cell, whose place is its own published count, and then publishes it.
    ///
    /// The note is of that cell. The value comes back where the cells refused it; nothing is published then.
    pub fn put<C: Cells<T>>(
        &self,
        table: &RoundTable,
        pass: &mut Pass,
        cells: &mut C,
        value: Box<T>,
    ) -> Result<Note<T>, Box<T>>
        requires table { pass.old.table ≡ table.now }
        requires workers { pass.old.view.terms.workers ≡ self.now.workers }
        requires worker { 1 ≤ pass.old.view.number }
        requires room { pass.old.view.own < self.now.cells }
        ensures table { pass.new.table ≡ pass.old.table }

        ensures published { OnOk result (pass.new.view ≡ with_publication pass.old.view) }
        ensures note { IfOk result (IsNoteOf self.now pass.old.view.number pass.old.view.own) }
        ensures known { IfOk result (λ note. note.known ≡ Some value.value) }

        ensures kept { OnErr result (pass.new.view ≡ pass.old.view) }
        ensures back { IfErr result (λ back. back.value ≡ value.value) }
        ensures cause { OnErr result (Rose (C.refused cells.old) (C.refused cells.new)) }

        ensures refused_later { C.refused cells.old ≤ C.refused cells.new }
        ensures empty_later { C.empty cells.old ≤ C.empty cells.new }
    {
        let cell = self.cell(pass.number(), pass.own());
        let note = cells.set(cell, value)?;
        table.publish(pass);
        Ok(note)
    }

    /// Loads the published count of a worker, and reads the cell at a place of its row, from 0, where it is below the
    /// count.
    pub fn read<C: Cells<T>>(
        &self,
        table: &RoundTable,
        pass: &mut Pass,
        cells: &mut C,
        worker: u32,
        place: u64,
    ) -> Look<'_, T>
        requires table { pass.old.table ≡ table.now }
        requires workers { pass.old.view.terms.workers ≡ self.now.workers }
        requires low { 1 ≤ worker }
        requires high { worker ≤ self.now.workers }
        requires place { place < self.now.cells }
        ensures table { pass.new.table ≡ pass.old.table }

        // The count loaded is the greatest that the pass has now seen of the worker.
        ensures view { pass.new.view ≡ with_count worker (seen_of worker pass.new.view) pass.old.view }
        ensures no_less { seen_of worker pass.old.view ≤ seen_of worker pass.new.view }
        ensures looked { Looked self.now worker place (seen_of worker pass.new.view) (C.empty cells.old) (C.empty cells.new) result }

        ensures refused_later { C.refused cells.old ≤ C.refused cells.new }
        ensures empty_later { C.empty cells.old ≤ C.empty cells.new }
    {
        let count = table.published(pass, worker);
        if count <= place {
            return Look::Beyond(count);
        }
        match cells.get(self.cell(worker, place)) {
            Some((value, note)) => Look::Found(value, note),
            None => Look::Unset,
        }
    }
}
