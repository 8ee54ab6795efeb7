//! Cells that refuse each record, and count how many they refused.

ghost use Rattle.std.specs.Prelude.{◌≡◌, ◌≤◌, Some, IfOk, IfErr, OnErr, IfSome, IfNone};
ghost use Rattle.once_cell.specs.Once.{cell_name};
ghost use Rattle.sched_base.specs.Outside.{Rose};

use cutset_store::CutRecord;
use once_cell::race::OnceBox;
use shared_rows::{Cells, Note};

/// Cells that refuse each set.
#[derive(Drop)]
pub struct Refusing {
    pub refused: u64,
    pub empty: u64,
}

impl Cells<CutRecord> for Refusing {
    ghost refused = { λ c. c.refused };

    ghost empty = { λ c. c.empty };

    fn set(
        &mut self,
        cell: &OnceBox<CutRecord>,
        value: Box<CutRecord>,
    ) -> Result<Note<CutRecord>, Box<CutRecord>>
        ensures note { IfOk result (λ note. note.cell ≡ cell_name cell.now) }
        ensures known { IfOk result (λ note. note.known ≡ Some value.value) }
        ensures back { IfErr result (λ back. back.value ≡ value.value) }
        ensures cause { OnErr result (Rose self.old.refused self.new.refused) }
        ensures refused_later { self.old.refused ≤ self.new.refused }
        ensures empty_later { self.old.empty ≤ self.new.empty }
    {
        let _ = cell;
        self.refused = self.refused.saturating_add(1);
        Err(value)
    }

    fn get<'a>(&mut self, cell: &'a OnceBox<CutRecord>) -> Option<(&'a CutRecord, Note<CutRecord>)>
        ensures note { IfSome result (λ found. found.1.cell ≡ cell_name cell.now) }
        ensures known { IfSome result (λ found. found.1.known ≡ Some found.0.now) }
        ensures cause { IfNone result (Rose self.old.empty self.new.empty) }
        ensures refused_later { self.old.refused ≤ self.new.refused }
        ensures empty_later { self.old.empty ≤ self.new.empty }
    {
        let _ = cell;
        self.empty = self.empty.saturating_add(1);
        None
    }
}
