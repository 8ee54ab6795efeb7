// The log of a table.
ghost use Rattle.std.specs.Prelude.{◌≡◌, ◌+◌, ◌<◌, ◌≤◌, length, map, slice_index, All, IfOk};
ghost use Rattle.search_log.specs.Table.{IsWhole, row_at};
ghost use Rattle.search_log.specs.Stands.{line_of};
ghost use Rattle.search_log.specs.Fates.{fate_of, shut_fate};
ghost use Rattle.search_log.specs.Told.{AreNumbered, Tells, TellsAll, origin_at, told_origin};

use crate::blocks::Blocks;
use crate::row::{Origin, Row, RowFate};
use crate::table::{Table, row_of};
use crate::walk::preorder;
use proof_log::{Log, LogLine};
use rcpsp_model::Shut;
use sched_base::{Fate, List, NoMemory};
use std::alloc::Global;

// The number of each place that is passed, from 1.
fn numbers_of(alloc: Global, size: u32, order: &[u32]) -> Result<Vec<u32>, NoMemory>
    requires within { All (λ p. p < size) order.now }
    requires short { length order.now ≤ 4294967295 }
    ensures { IfOk result (λ numbers. AreNumbered numbers.items order.now) }
{
    let mut numbers = vec![in alloc; 0u32; size as usize]?;
    for (i, place) in order.iter().enumerate() {
        numbers[*place as usize] = i as u32 + 1;
    }
    Ok(numbers)
}

fn number_at(numbers: &[u32], place: u32) -> u32
    ensures { result ≡ slice_index numbers.now place }
{
    numbers.get(place as usize).copied().unwrap_or(0)
}

fn fate_of_shut(why: Shut) -> Fate
    ensures { result ≡ shut_fate why }
{
    match why {
        Shut::NoCapacity(resource) => Fate::Capacity(resource),
        Shut::NoBudget(resource) => Fate::Budget(resource),
        Shut::Inefficient(mode) => Fate::Worse(mode),
    }
}

fn told_fate(numbers: &[u32], fate: RowFate) -> Fate
    ensures { result ≡ fate_of numbers.now fate }
{
    match fate {
        RowFate::Open => Fate::Left(0),
        RowFate::Expanded { count: _, first: _ } => Fate::Expanded,
        RowFate::Leaf => Fate::Leaf,
        RowFate::TailBound => Fate::TailBound,
        RowFate::WorkBound(resource) => Fate::WorkBound(resource),
        RowFate::Cited(place) => Fate::Cutset(number_at(numbers, place)),
        RowFate::Left(bound) => Fate::Left(bound),
        RowFate::Shut(why) => fate_of_shut(why),
    }
}

fn told_line(numbers: &[u32], row: Row) -> LogLine
    ensures { result ≡ line_of numbers.now row }
{
    LogLine {
        job: row.job,
        mode: row.mode,
        start: row.start,
        fate: told_fate(numbers, row.fate),
    }
}

// The lines of the places.
fn lines_of(
    alloc: Global,
    rows: &Blocks<Row>,
    order: &[u32],
    numbers: &[u32],
) -> Result<Vec<LogLine>, NoMemory>
    requires { All (λ p. p < length rows.now) order.now }
    ensures { IfOk result (λ lines. lines.items ≡ map (λ p. line_of numbers.now (row_at rows.now p)) order.now) }
{
    let mut lines = Vec::with_capacity(alloc, order.len())?;
    for place in order {
        lines.push(told_line(numbers, row_of(rows, *place)))?;
    }
    Ok(lines)
}

fn origin_of(number: u32, origin: Origin) -> Origin
    ensures { result ≡ told_origin number origin }
{
    if origin.worker == 0 {
        Origin {
            turn: number,
            ..origin
        }
    } else {
        origin
    }
}

// The origins of the places.
fn origins_of(
    alloc: Global,
    origins: &Blocks<Origin>,
    order: &[u32],
    numbers: &[u32],
) -> Result<Vec<Origin>, NoMemory>
    requires { All (λ p. p < length origins.now) order.now }
    ensures { IfOk result (λ told. told.items ≡ map (λ p. told_origin (slice_index numbers.now p) (origin_at origins.now p)) order.now) }
{
    let mut told = Vec::with_capacity(alloc, order.len())?;
    for place in order {
        told.push(origin_of(number_at(numbers, *place), origins.get(*place)))?;
    }
    Ok(told)
}

// The same, after which the origins of the table are let go.
fn take_origins(
    alloc: Global,
    origins: Blocks<Origin>,
    order: &[u32],
    numbers: &[u32],
) -> Result<Vec<Origin>, NoMemory>
    requires { All (λ p. p < length origins) order.now }
    ensures { IfOk result (λ told. told.items ≡ map (λ p. told_origin (slice_index numbers.now p) (origin_at origins p)) order.now) }
{
    origins_of(alloc, &origins, order, numbers)
}

/// A log with the origin of each line.
#[derive(Drop)]
pub struct Told {
    pub log: Log,
    pub origins: List<Origin>,
}

/// The log of a table, in preorder from the root. What was told of the table is let go at once.
pub fn log_of(alloc: Global, table: Table) -> Result<Told, NoMemory>
    requires whole { IsWhole table.rows }
    requires origins { length table.origins ≡ length table.rows }
    ensures { IfOk result (λ told. TellsAll table.rows table.origins told.log told.origins) }
{
    let Table { rows, origins } = table;
    let order = preorder(alloc, &rows)?;
    let places = order.as_slice();
    let all_numbers = numbers_of(alloc, rows.len(), places)?;
    let numbers = all_numbers.as_slice();
    let told = take_origins(alloc, origins, places, numbers)?;
    let lines = lines_of(alloc, &rows, places, numbers)?;
    Ok(Told {
        log: List::from_vec(lines),
        origins: List::from_vec(told),
    })
}
