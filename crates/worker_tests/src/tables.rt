//! The table of a search, and the log that is told of it.

ghost use Rattle.std.specs.Prelude.{◌≡◌, ◌<◌, length, IfOk};

use proof_log::LogLine;
use rcpsp_model::Verdict;
use sched_base::{Fate, NoMemory};
use search_log::{Blocks, Fill, Origin, Row, RowFate, Table, fill, least_left, log_of, verdict};
use std::alloc::Global;
use std::test::Fail;

const ROOT: Row = Row {
    start: None,
    fate: RowFate::Expanded { count: 1, first: 1 },
    job: 0,
    mode: 0,
};

/// A row of mode 1.
fn row(job: u8, start: u32, fate: RowFate) -> Row
    ensures { result ≡ record { start = Some start; fate = fate; job = job; mode = 1 } }
{
    Row {
        start: Some(start),
        fate,
        job,
        mode: 1,
    }
}

fn line(job: u8, start: u32, fate: Fate) -> LogLine {
    LogLine {
        job,
        mode: 1,
        start: Some(start),
        fate,
    }
}

/// Each row with an origin of its own: worker 2 visits those at even places, and that of place 9 is closed at the end.
fn origin(place: usize) -> Origin {
    Origin {
        round: 1,
        worker: if place == 9 {
            0
        } else {
            1 + (place % 2 == 0) as u32
        },
        turn: 0,
    }
}

fn table_of(alloc: Global, rows: &[Row]) -> Result<Table, NoMemory>
    requires { length rows.now < 100 }
    ensures rows { IfOk result (λ t. t.rows ≡ rows.now) }
    ensures origins { IfOk result (λ t. length t.origins ≡ length rows.now) }
{
    let mut table = Table::new(alloc);
    for (place, row) in rows.iter().enumerate() {
        table.push(*row, origin(place))?;
    }
    Ok(table)
}

#[test]
fn a_citation_of_a_later_line(rt: HostRuntime) -> Result<(), Fail> {
    let rows = [
        ROOT,
        row(1, 0, RowFate::Expanded { count: 2, first: 2 }),
        row(2, 0, RowFate::Expanded { count: 1, first: 5 }),
        row(3, 0, RowFate::Expanded { count: 1, first: 4 }),
        row(2, 0, RowFate::Expanded { count: 2, first: 6 }),
        row(3, 0, RowFate::Cited(4)),
        row(4, 1, RowFate::Expanded { count: 1, first: 8 }),
        row(5, 1, RowFate::Expanded { count: 1, first: 9 }),
        row(5, 4, RowFate::TailBound),
        row(4, 3, RowFate::TailBound),
    ];
    let table = table_of(rt.alloc(), &rows)?;
    let told = log_of(rt.alloc(), table)?;
    let lines = [
        line(1, 0, Fate::Expanded),
        line(2, 0, Fate::Expanded),
        line(3, 0, Fate::Cutset(6)),
        line(3, 0, Fate::Expanded),
        line(2, 0, Fate::Expanded),
        line(4, 1, Fate::Expanded),
        line(5, 4, Fate::TailBound),
        line(5, 1, Fate::Expanded),
        line(4, 3, Fate::TailBound),
    ];
    let log = told.log.as_slice();
    assert_eq!(rt; log.len(), 10);
    assert_eq!(rt; log[0].fate, Fate::Expanded);
    assert_eq!(rt; &log[1..], lines.as_slice());
    let origins = told.origins.as_slice();
    assert_eq!(rt; origins.len(), 10);
    assert_eq!(rt; origins[3].worker, 1);
    assert_eq!(rt; origins[9].worker, 0);
    assert_eq!(rt; origins[9].turn, 10);
    Ok(())
}

#[test]
fn the_least_of_what_was_left(rt: HostRuntime) -> Result<(), Fail> {
    let rows = [
        ROOT,
        row(1, 0, RowFate::Expanded { count: 3, first: 2 }),
        row(2, 0, RowFate::Open),
        row(3, 0, RowFate::Open),
        row(4, 0, RowFate::TailBound),
    ];
    let mut table = table_of(rt.alloc(), &rows)?;
    assert_eq!(rt; least_left(&table.rows), None);
    let fills = [
        Fill {
            place: 3,
            fate: RowFate::Left(7),
            origin: origin(9),
        },
        Fill {
            place: 2,
            fate: RowFate::Left(5),
            origin: origin(9),
        },
    ];
    fill(&mut table, &fills);
    assert_eq!(rt; table.rows.get(2).fate, RowFate::Left(5));
    assert_eq!(rt; table.rows.get(4).fate, RowFate::TailBound);
    let lower = least_left(&table.rows);
    assert_eq!(rt; lower, Some(5));
    let limit = Verdict::Limit {
        duration: Some(9),
        lower: 5,
    };
    assert_eq!(rt; verdict(Some(9), lower), limit);
    assert_eq!(rt; verdict(Some(9), None), Verdict::Optimal { duration: 9 });
    assert_eq!(rt; verdict(None, None), Verdict::Infeasible);
    Ok(())
}

/// The numbers below n, in blocks.
fn numbers(alloc: Global, n: u32) -> Result<Blocks<u32>, NoMemory>
    requires { n < 10000 }
    ensures { IfOk result (λ b. length b ≡ n) }
{
    let mut numbers = Blocks::new(alloc);
    for i in 0..n {
        numbers.push(i)?;
    }
    Ok(numbers)
}

#[test]
fn from_block_to_block(rt: HostRuntime) -> Result<(), Fail> {
    let mut all = numbers(rt.alloc(), 8193)?;
    assert_eq!(rt; all.len(), 8193);
    assert_eq!(rt; all.get(4095), 4095);
    assert_eq!(rt; all.get(4096), 4096);
    all.set(8192, 1);
    assert_eq!(rt; all.get(8191), 8191);
    assert_eq!(rt; all.get(8192), 1);
    Ok(())
}
