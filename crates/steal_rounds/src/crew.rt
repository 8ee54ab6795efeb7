// Workers that run a round.
ghost use Rattle.std.specs.Prelude.{◌≡◌, ◌<◌, ◌≤◌, length, All, IfOk, IfSome};
ghost use Rattle.precedence_tree.specs.Base.{IsBaseOf};
ghost use Rattle.precedence_tree.specs.Node.{StandsFor};
ghost use Rattle.search_log.specs.Lean.{end_number, most_in_round};
ghost use Rattle.search_rounds.specs.Round.{IsRoundOn};
ghost use Rattle.round_shares.specs.Ends.{end_in};
ghost use Rattle.steal_rounds.specs.Cited.{ArePublished, AreToBeCited, AreFills};
ghost use Rattle.steal_rounds.specs.Settled.{Settles, EndsAs};

use crate::citing::cite_live;
use crate::dealing::deal;
use crate::gathering::{Whole, gather};
use crate::member::{run_members, seat};
use crate::preorder::sort;
use cutset_store::CutRecord;
use project_net::Project;
use sched_base::{Gate, List, NoMemory};
use search_log::Table;
use search_rounds::{Records, RoundResult, Terms, WaitingNode};
use search_table::RoundTable;
use shared_rows::Rows;
use std::alloc::Global;
use std::thread::Threads;

/// The number of an end that isn't known.
const NONE_YET: u32 = 4294967295;

// The number of an end, in periods; 4,294,967,295 where there is none.
fn number_of(end: Option<u32>) -> u64
    ensures { result ≡ end_number end }
{
    match end {
        Some(end) => end as u64,
        None => NONE_YET as u64,
    }
}

// The end of which this is the number, in periods.
fn end_of(number: u64) -> Option<u32>
    requires { number ≤ 4294967295 }
    ensures { result ≡ end_in number }
{
    let end = number as u32;
    if end == NONE_YET { None } else { Some(end) }
}

// Lets the fills that cite live records cite their rows.
fn settled(rows: &Rows<CutRecord>, mut whole: Whole) -> Whole
    requires published { ArePublished rows.now whole.made.items whole.published.items }
    requires cited { AreToBeCited rows.now whole.published.items whole.cited.items }
    requires many { length whole.live.items ≡ length whole.cited.items }
    requires fills { AreFills (length whole.fills.items) whole.live.items }
    ensures { Settles whole result }
{
    cite_live(
        rows,
        whole.made.as_slice(),
        whole.published.as_mut_slice(),
        whole.cited.as_mut_slice(),
        whole.live.as_slice(),
        whole.fills.as_mut_slice(),
    );
    whole
}

// What the round ends with. What is left is put into the preorder of the tree.
fn ended(mut whole: Whole, best: u64) -> Result<RoundResult, NoMemory>
    requires { best ≤ 4294967295 }
    ensures { IfOk result (EndsAs whole best) }
{
    sort(&mut whole.left)?;
    let made = whole.made.as_slice().len();
    if made > u32::MAX as usize {
        return Err(NoMemory);
    }
    Ok(RoundResult {
        grown: List::from_vec(whole.grown),
        fills: List::from_vec(whole.fills),
        left: List::from_vec(whole.left),
        made: List::from_vec(whole.made),
        best: end_of(best),
        plan: whole.plan,
        used: made as u32,
    })
}

/// A round of 1 to 32 workers over the nodes of a frontier, which wait in the table. They work side by side, each in a thread of
/// its own where threads can be had, and pass the gate when they begin and after each node that they expanded.
///
/// Its terms are the number of the round, from 1, how many nodes it may expand, and the least end so far, at most 1,290,000.
///
/// # Errors
///
/// [`NoMemory`] where memory was refused to the round or to one of its workers.
pub fn round<R: Threads + Sync, G: Gate + Sync>(
    runtime: &R,
    alloc: Global,
    project: &Project,
    table: &Table,
    records: &Records,
    frontier: List<WaitingNode>,
    workers: u32,
    terms: Terms,
    gate: &G,
) -> Result<RoundResult, NoMemory>
    requires some_workers { 1 ≤ workers }
    requires few_workers { workers ≤ 32 }
    requires some { 0 < length frontier }
    requires nodes { All (λ w. StandsFor project.now w.node) frontier }
    requires number { 1 ≤ terms.number }
    requires quota { 0 < terms.quota }
    requires few { terms.quota ≤ most_in_round terms.number }
    requires soon { IfSome terms.best (λ end. end ≤ 1290000) }
    requires records { All (IsBaseOf project.now) records.now.index }
    requires places { length records.now.places ≡ length records.now.index }
    requires room { length table.now.rows ≤ 51200001 }
    ensures { IfOk result (IsRoundOn project.now workers table.now records.now frontier terms) }
{
    let start = number_of(terms.best);
    let (words, mut first) = RoundTable::new(alloc, start, terms.quota as u64, workers)?;
    let rows = Rows::new(alloc, workers, terms.quota)?;
    let dealt = deal(alloc, frontier, workers as usize)?;
    let sources = node_sources::seat(alloc, project, dealt)?;
    let mut members = seat(alloc, project, &words, &mut first, sources)?;
    run_members(
        runtime,
        alloc,
        project,
        records,
        &words,
        &rows,
        terms.number,
        gate,
        &mut members,
    );
    let whole = gather(
        alloc,
        project,
        table.rows.len(),
        &words,
        &mut first,
        members,
    )?;
    let end = words.close_with(first);
    ended(settled(&rows, whole), end.best)
}
