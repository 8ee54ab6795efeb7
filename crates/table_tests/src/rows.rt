//! Rows of cells: what one worker puts, another reads.

ghost use Rattle.std.specs.Prelude.{◌≡◌, ◌≤◌, ◌<◌};

use once_cell::race::OnceBox;
use search_table::{Pass, RoundTable};
use shared_rows::{Cells, Look, OnceCells, Rows};
use std::alloc::Global;
use std::test::Fail;
use std::thread::{Threads, join_mut};

/// How many records a worker puts.
const RECORDS: u32 = 3;

/// How often the other worker looks for them at most.
const TURNS: u32 = 100_000_000;

/// Puts the numbers from 0 on, one after the other. Whether each was put.
fn put_all(alloc: Global, rows: &Rows<u64>, table: &RoundTable, pass: &mut Pass) -> bool
    requires table { pass.old.table ≡ table.now }
    requires workers { pass.old.view.terms.workers ≡ rows.now.workers }
    requires worker { 1 ≤ pass.old.view.number }
    requires cells { RECORDS ≤ rows.now.cells }
    requires unpublished { pass.old.view.own ≡ 0 }
    ensures table { pass.new.table ≡ pass.old.table }
    ensures workers { pass.new.view.terms.workers ≡ pass.old.view.terms.workers }
{
    let mut cells = OnceCells::new();
    for number in 0..RECORDS {
        let Ok(value) = Box::new(alloc, u64::from(number)) else {
            return false;
        };
        if rows.put(table, pass, &mut cells, value).is_err() {
            return false;
        }
    }
    true
}

/// Reads the records of worker 1 until all are found, in order. Whether they were, and each was the number of its place.
fn read_all(rows: &Rows<u64>, table: &RoundTable, pass: &mut Pass) -> bool
    requires table { pass.old.table ≡ table.now }
    requires workers { pass.old.view.terms.workers ≡ rows.now.workers }
    requires worker { 1 ≤ rows.now.workers }
    requires cells { RECORDS ≤ rows.now.cells }
    ensures table { pass.new.table ≡ pass.old.table }
    ensures workers { pass.new.view.terms.workers ≡ pass.old.view.terms.workers }
{
    let mut cells = OnceCells::new();
    let mut next = 0;
    for _ in 0..TURNS {
        match rows.read(table, pass, &mut cells, 1, next) {
            Look::Found(value, _) if *value == next => next += 1,
            Look::Beyond(count) if count == next => {}
            _ => return false,
        }
        if next == u64::from(RECORDS) {
            return true;
        }
    }
    false
}

#[test]
fn records_are_put_and_read_on_one_thread(rt: HostRuntime) -> Result<(), Fail> {
    let (table, mut first) = RoundTable::new(rt.alloc(), 9, 4, 2)?;
    let rows = Rows::new(rt.alloc(), 2, RECORDS)?;
    let mut one = table.split(&mut first, 1);
    let mut two = table.split(&mut first, 2);
    assert!(rt; put_all(rt.alloc(), &rows, &table, &mut one));
    assert!(rt; read_all(&rows, &table, &mut two));
    Ok(())
}

/// One worker puts, and the other reads, each in a thread of its own.
fn put_and_read<R: Threads + Sync>(
    rt: &R,
    alloc: Global,
    rows: &Rows<u64>,
    table: &RoundTable,
    one: &mut Pass,
    two: &mut Pass,
) -> (bool, bool)
    requires one { one.old.table ≡ table.now }
    requires one_workers { one.old.view.terms.workers ≡ rows.now.workers }
    requires one_number { 1 ≤ one.old.view.number }
    requires one_unpublished { one.old.view.own ≡ 0 }
    requires two { two.old.table ≡ table.now }
    requires two_workers { two.old.view.terms.workers ≡ rows.now.workers }
    requires workers { 1 ≤ rows.now.workers }
    requires cells { RECORDS ≤ rows.now.cells }
{
    join_mut(
        rt,
        &mut || put_all(alloc, rows, table, one),
        &mut || read_all(rows, table, two),
    )
}

#[test]
fn a_thread_reads_what_another_puts(rt: HostRuntime) -> Result<(), Fail> {
    let (table, mut first) = RoundTable::new(rt.alloc(), 9, 4, 2)?;
    let rows = Rows::new(rt.alloc(), 2, RECORDS)?;
    let mut one = table.split(&mut first, 1);
    let mut two = table.split(&mut first, 2);
    let done = put_and_read(&rt, rt.alloc(), &rows, &table, &mut one, &mut two);
    assert_eq!(rt; done, (true, true));
    Ok(())
}

#[test]
fn a_cell_that_is_set_hands_a_value_back(rt: HostRuntime) -> Result<(), Fail> {
    let cell = OnceBox::new(rt.alloc());
    let mut cells = OnceCells::new();
    assert!(rt; cells.set(&cell, Box::new(rt.alloc(), 1u64)?).is_ok());
    let back = cells.set(&cell, Box::new(rt.alloc(), 2u64)?);
    assert!(rt; back.is_err_and(|value| *value == 2));
    Ok(())
}

/// That threads may share the value.
fn is_shared<T: Sync>(_value: &T) {}

/// That the value may go to another thread.
fn is_sent<T: Send>(_value: &T) {}

#[test]
fn rows_and_notes_cross_threads(rt: HostRuntime) -> Result<(), Fail> {
    let rows: Rows<u64> = Rows::new(rt.alloc(), 2, RECORDS)?;
    let note = OnceBox::<u64>::new(rt.alloc()).note();
    is_shared(&rows);
    is_sent(&rows);
    is_sent(&note);
    is_sent(&OnceCells::new());
    Ok(())
}
