ghost use Rattle.std.specs.Prelude.{◌≡◌, OnOk, OnErr};
ghost use Rattle.cutset_store.specs.Line.{empty_line, Appends};

use crate::row::Row;
use precedence_tree::Active;
use sched_base::{JobSet, NoMemory};
use std::alloc::Global;
use std::marker::Model;
use std::mem::size_of;

/// The rows of all records of the same jobs, in the order of adding, and beside them their needs and their active jobs.
#[derive(Drop)]
pub struct Line {
    jobs: JobSet,
    rows: Vec<Row>,
    needs: Vec<u32>,
    active: Vec<Active>,
}

const _: () = prove!(size_of::<Line>() <= 96);

const _: () = prove!(size_of::<Active>() <= 12);

impl Model for Line {
    ghost use Rattle.cutset_store.specs.Line.{LineState};

    ghost Value = { LineState };

    ghost view = { λ l. record { jobs = l.jobs; rows = l.rows.items; needs = l.needs.items; active = l.active.items } };
}

impl Line {
    /// The line without a row; it takes no memory.
    pub fn new(alloc: Global, jobs: JobSet) -> Self
        ensures { result ≡ empty_line jobs }
    {
        Line {
            jobs,
            rows: Vec::new(alloc),
            needs: Vec::new(alloc),
            active: Vec::new(alloc),
        }
    }

    /// The jobs that all its records have.
    pub fn jobs(&self) -> JobSet
        ensures { result ≡ self.now.jobs }
    {
        self.jobs
    }

    /// The rows in order.
    pub fn rows(&self) -> &[Row]
        ensures { result.now ≡ self.now.rows }
    {
        self.rows.as_slice()
    }

    /// Of each row in turn, what its jobs need.
    pub fn needs(&self) -> &[u32]
        ensures { result.now ≡ self.now.needs }
    {
        self.needs.as_slice()
    }

    /// Of each row in turn, its active jobs.
    pub fn active(&self) -> &[Active]
        ensures { result.now ≡ self.now.active }
    {
        self.active.as_slice()
    }

    /// Appends a row, with what stands beside it; for want of memory it changes nothing.
    pub fn push(&mut self, row: Row, needs: &[u32], active: &[Active]) -> Result<(), NoMemory>
        ensures jobs { self.new.jobs ≡ self.old.jobs }
        ensures ok { OnOk result (Appends self.old self.new row needs.now active.now) }
        ensures err { OnErr result (self.new ≡ self.old) }
    {
        self.rows.reserve(1)?;
        self.needs.reserve(needs.len())?;
        self.active.extend_from_slice(active)?;
        self.needs.extend_from_slice(needs).unwrap();
        self.rows.push_reserved(row);
        Ok(())
    }
}
