ghost use Rattle.std.specs.Prelude.{◌≡◌, ◌<◌, ◌≤◌, [], ◌∷◌, ◌++◌, length, All, OnOk};
ghost use Rattle.search_log.specs.Table.{row_at};
ghost use Rattle.search_log.specs.Stands.{fill_rows, fill_origins};

use crate::blocks::Blocks;
use crate::row::{Fill, Origin, Row};
use sched_base::NoMemory;
use std::alloc::Global;

/// The rows of all rounds, each with the origin of what it says.
#[derive(Drop)]
pub struct Table {
    pub rows: Blocks<Row>,
    pub origins: Blocks<Origin>,
}

// The row at a place.
pub fn row_of(rows: &Blocks<Row>, place: u32) -> Row
    requires { place < length rows.now }
    ensures { result ≡ row_at rows.now place }
{
    rows.get(place)
}

impl Table {
    /// The table without a row; it takes no memory.
    pub fn new(alloc: Global) -> Table
        ensures rows { result.rows ≡ [] }
        ensures origins { result.origins ≡ [] }
    {
        Table {
            rows: Blocks::new(alloc),
            origins: Blocks::new(alloc),
        }
    }

    /// Appends a row. After want of memory the table is of no use.
    pub fn push(&mut self, row: Row, origin: Origin) -> Result<(), NoMemory>
        requires rows { length self.old.rows < 4294967295 }
        requires origins { length self.old.origins < 4294967295 }
        ensures rows { OnOk result (self.new.rows ≡ self.old.rows ++ row ∷ []) }
        ensures origins { OnOk result (self.new.origins ≡ self.old.origins ++ origin ∷ []) }
    {
        self.rows.push(row)?;
        self.origins.push(origin)
    }
}

// Writes what became of the node at a place.
fn fill_row(table: &mut Table, fill: Fill)
    requires rows { fill.place < length table.old.rows }
    requires origins { fill.place < length table.old.origins }
    ensures rows { table.new.rows ≡ fill_rows table.old.rows (fill ∷ []) }
    ensures origins { table.new.origins ≡ fill_origins table.old.origins (fill ∷ []) }
{
    let row = row_of(&table.rows, fill.place);
    let fate = fill.fate;
    table.rows.set(fill.place, Row { fate, ..row });
    table.origins.set(fill.place, fill.origin);
}

/// Writes what became of the nodes at these places, one after another.
pub fn fill(table: &mut Table, fills: &[Fill])
    requires rows { All (λ f. f.place < length table.old.rows) fills.now }
    requires origins { length table.old.origins ≡ length table.old.rows }
    ensures rows { table.new.rows ≡ fill_rows table.old.rows fills.now }
    ensures origins { table.new.origins ≡ fill_origins table.old.origins fills.now }
{
    for fill in fills {
        fill_row(table, *fill);
    }
}
