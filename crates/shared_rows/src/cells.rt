ghost use Rattle.std.specs.Prelude.{◌≡◌, ◌≤◌, ℕ, Some, IfOk, IfErr, IfSome, OnErr, IfNone};
ghost use Rattle.once_cell.specs.Once.{cell_name};
ghost use Rattle.sched_base.specs.Outside.{Rose};

use once_cell::race::{Note, OnceBox};
use std::marker::Model;

/// How one worker sets and reads cells, with a count of each kind of miss. No call takes memory.
pub trait Cells<T> {
    /// How many sets were refused, up to the end of a `u64`.
    ghost refused: { Self → ℕ };

    /// How many reads found a cell empty, up to the end of a `u64`.
    ghost empty: { Self → ℕ };

    /// Sets a cell, and gives a note of it that knows the value; or hands the value back, and counts it as refused.
    fn set(&mut self, cell: &OnceBox<T>, value: Box<T>) -> Result<Note<T>, Box<T>>
        ensures note { IfOk result (λ note. note.cell ≡ cell_name cell.now) }
        ensures known { IfOk result (λ note. note.known ≡ Some value.value) }
        ensures back { IfErr result (λ back. back.value ≡ value.value) }
        ensures cause { OnErr result (Rose (refused self.old) (refused self.new)) }
        ensures refused_later { refused self.old ≤ refused self.new }
        ensures empty_later { empty self.old ≤ empty self.new };

    /// The value of a cell, and a note of it that knows the value; or none, which is counted as an empty read.
    fn get<'a>(&mut self, cell: &'a OnceBox<T>) -> Option<(&'a T, Note<T>)>
        ensures note { IfSome result (λ found. found.1.cell ≡ cell_name cell.now) }
        ensures known { IfSome result (λ found. found.1.known ≡ Some found.0.now) }
        ensures cause { IfNone result (Rose (empty self.old) (empty self.new)) }
        ensures refused_later { refused self.old ≤ refused self.new }
        ensures empty_later { empty self.old ≤ empty self.new };
}

/// The cells of `once_cell` as they are: nothing tells when they miss.
#[derive(Drop)]
pub struct OnceCells {
    refused: u64,
    empty: u64,
}

impl Model for OnceCells {
    ghost use Rattle.shared_rows.specs.Misses.{Misses};

    ghost Value = { Misses };

    ghost view = { λ c. record { refused = c.refused; empty = c.empty } };
}

impl OnceCells {
    /// Cells that have missed nothing so far.
    pub fn new() -> Self
        ensures { result ≡ record { refused = 0; empty = 0 } }
    {
        OnceCells {
            refused: 0,
            empty: 0,
        }
    }
}

impl<T: Drop> Cells<T> for OnceCells {
    ghost refused = { λ c. c.refused };

    ghost empty = { λ c. c.empty };

    fn set(&mut self, cell: &OnceBox<T>, value: Box<T>) -> Result<Note<T>, Box<T>>
        ensures note { IfOk result (λ note. note.cell ≡ cell_name cell.now) }
        ensures known { IfOk result (λ note. note.known ≡ Some value.value) }
        ensures back { IfErr result (λ back. back.value ≡ value.value) }
        ensures cause { OnErr result (Rose self.old.refused self.new.refused) }
        ensures refused_later { self.old.refused ≤ self.new.refused }
        ensures empty_later { self.old.empty ≤ self.new.empty }
    {
        let mut note = cell.note();
        match cell.set_as(value, &mut note) {
            Ok(()) => Ok(note),
            Err(value) => {
                self.refused = self.refused.saturating_add(1);
                Err(value)
            }
        }
    }

    fn get<'a>(&mut self, cell: &'a OnceBox<T>) -> Option<(&'a T, Note<T>)>
        ensures note { IfSome result (λ found. found.1.cell ≡ cell_name cell.now) }
        ensures known { IfSome result (λ found. found.1.known ≡ Some found.0.now) }
        ensures cause { IfNone result (Rose self.old.empty self.new.empty) }
        ensures refused_later { self.old.refused ≤ self.new.refused }
        ensures empty_later { self.old.empty ≤ self.new.empty }
    {
        let mut note = cell.note();
        match cell.get_as(&mut note) {
            Some(value) => Some((value, note)),
            None => {
                self.empty = self.empty.saturating_add(1);
                None
            }
        }
    }
}
