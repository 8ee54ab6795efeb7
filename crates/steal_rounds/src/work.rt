// What a worker does in a round.
ghost use Rattle.std.specs.Prelude.{◌≡◌, ◌+◌, ◌≤◌, ◌<◌, ◌++◌, [], length, All, IfOk, OnOk};
ghost use Rattle.precedence_tree.specs.Base.{IsBaseOf};
ghost use Rattle.precedence_tree.specs.Node.{StandsFor};
ghost use Rattle.tree_worker.specs.Worker.{IsAtWork};
ghost use Rattle.tree_worker.specs.Visits.{StaysOf};
ghost use Rattle.node_sources.specs.Source.{IsSourceOf};
ghost use Rattle.node_sources.specs.Seats.{Stays};
ghost use Rattle.steal_rounds.specs.Fates.{IsCitedWithin, fate_in, live_numbers, places_of};
ghost use Rattle.steal_rounds.specs.Lists.{part_state};
ghost use Rattle.steal_rounds.specs.Turns.{stage_of, next_stage, ClosesAs, KeepsShare, Counts, IsTurn};

use crate::expanding::expanded;
use crate::part::Part;
use cutset_store::CutRecord;
use node_sources::ROOM;
use project_net::Project;
use sched_base::{Gate, NoMemory};
use search_log::{Fill, Origin, RowFate};
use search_rounds::{PlacedRecord, Records, WaitingNode};
use search_table::{Pass, RoundTable};
use shared_rows::{Cells, OnceCells, Rows};
use std::alloc::Global;
use tree_worker::{Cite, Close, TreeWorker, Visited};

/// How many visits a worker makes in a round at most.
const MOST_VISITS: u32 = 65536;

// The fate of a node that a visit closed. A record is cited by the place of its row; that of a live one isn't known yet.
fn fate_of(close: Close, records: &Records, made: &[PlacedRecord]) -> RowFate
    requires { IsCitedWithin (length records.now.places) (length made.now) close }
    ensures { result ≡ fate_in records.now.places (places_of made.now) close }
{
    match close {
        Close::Leaf => RowFate::Leaf,
        Close::TailBound => RowFate::TailBound,
        Close::WorkBound(resource) => RowFate::WorkBound(resource),
        Close::Cutset(Cite::Earlier(number)) => {
            let places = records.places.as_slice();
            RowFate::Cited(places[number as usize])
        }
        Close::Cutset(Cite::Own(number)) => RowFate::Cited(made[number as usize].place),
        Close::Cutset(Cite::Live { .. }) => RowFate::Cited(0),
    }
}

// Keeps the number of the next fill, if its node was closed by a live record.
fn note_live(live: &mut Vec<u32>, number: u32, close: Close) -> Result<(), NoMemory>
    ensures { OnOk result (live.new.items ≡ live.old.items ++ live_numbers number close) }
{
    match close {
        Close::Cutset(Cite::Live { .. }) => {
            live.push(number)?;
            Ok(())
        }
        _ => Ok(()),
    }
}

// A node at a place was closed.
fn closed(
    records: &Records,
    part: &mut Part,
    place: u32,
    close: Close,
    origin: Origin,
) -> Result<(), NoMemory>
    requires cited { IsCitedWithin (length records.now.places) (length part.old.made.items) close }
    requires few { length part.old.fills.items ≤ 65536 }
    ensures source { part.new.source ≡ part.old.source }
    ensures closes { OnOk result (ClosesAs records.now place close origin (part_state part.old) (part_state part.new)) }
{
    let fate = fate_of(close, records, part.made.as_slice());
    let number = part.fills.as_slice().len() as u32;
    note_live(&mut part.live, number, close)?;
    part.fills.push(Fill {
        place,
        fate,
        origin,
    })?;
    Ok(())
}

// Visits a node at a turn, and says whether the part goes on.
fn take_turn<C: Cells<CutRecord>, G: Gate>(
    alloc: Global,
    project: &Project,
    records: &Records,
    words: &RoundTable,
    rows: &Rows<CutRecord>,
    worker: &mut TreeWorker,
    pass: &mut Pass,
    cells: &mut C,
    part: &mut Part,
    origin: Origin,
    next: WaitingNode,
    gate: &G,
) -> Result<bool, NoMemory>
    requires table { pass.old.table ≡ words.now }
    requires work { IsAtWork project.now rows.now (record { worker = worker.old; pass = pass.old.view }) }
    requires unrefused { pass.old.view.refused ≡ 0 }
    requires records { All (IsBaseOf project.now) records.now.index }
    requires places { length records.now.places ≡ length records.now.index }
    requires node { StandsFor project.now next.node }
    requires number { origin.worker ≡ pass.old.view.number }
    requires worker { origin.worker ≤ 32 }
    requires turn { origin.turn ≡ length part.old.fills.items + 1 }
    requires few { origin.turn ≤ 65536 }
    requires counts { Counts (stage_of worker.old pass.old part.old) }
    requires source { IsSourceOf project.now part.old.source }
    requires own { part.old.source.number ≡ origin.worker }
    ensures table { pass.new.table ≡ pass.old.table }
    ensures stays { StaysOf pass.old.view pass.new.view }
    ensures source { Stays part.old.source part.new.source }
    ensures work { OnOk result (IsAtWork project.now rows.now (record { worker = worker.new; pass = pass.new.view })) }
    ensures counts { OnOk result (Counts (stage_of worker.new pass.new part.new)) }
    ensures turn { IfOk result (λ on. IsTurn on (stage_of worker.old pass.old part.old) (stage_of worker.new pass.new part.new)) }
    ensures keeps { OnOk result (KeepsShare project.now records.now origin (next_stage next (stage_of worker.old pass.old part.old)) (stage_of worker.new pass.new part.new)) }
{
    project.known();
    let WaitingNode { place, node } = next;
    match worker.visit(
        alloc,
        project,
        words,
        pass,
        &records.index,
        rows,
        cells,
        node,
    )? {
        Visited::Closed(_, close) => {
            closed(records, part, place, close, origin)?;
            Ok(true)
        }
        Visited::Expanded(_, children, known) => {
            let first = origin.worker * ROOM + part.grown.as_slice().len() as u32;
            expanded(part, place, known, children, first, origin)?;
            gate.pass(origin.worker);
            Ok(true)
        }
        Visited::Back(node) => {
            part.source.put_back(WaitingNode { place, node })?;
            Ok(false)
        }
    }
}

/// Visits nodes until none waits, a ticket is refused, or enough were visited.
pub(crate) fn work<G: Gate>(
    alloc: Global,
    project: &Project,
    records: &Records,
    words: &RoundTable,
    rows: &Rows<CutRecord>,
    worker: &mut TreeWorker,
    pass: &mut Pass,
    part: &mut Part,
    round: u32,
    gate: &G,
) -> Result<(), NoMemory>
    requires table { pass.old.table ≡ words.now }
    requires work { IsAtWork project.now rows.now (record { worker = worker.old; pass = pass.old.view }) }
    requires unrefused { pass.old.view.refused ≡ 0 }
    requires records { All (IsBaseOf project.now) records.now.index }
    requires places { length records.now.places ≡ length records.now.index }
    requires source { IsSourceOf project.now part.old.source }
    requires own { part.old.source.number ≡ pass.old.view.number }
    requires number { pass.old.view.number ≤ 32 }
    requires fresh { part.old.fills.items ≡ [] }
    requires counts { Counts (stage_of worker.old pass.old part.old) }
    ensures table { pass.new.table ≡ pass.old.table }
    ensures stays { StaysOf pass.old.view pass.new.view }
    ensures source { Stays part.old.source part.new.source }
    ensures work { OnOk result (IsAtWork project.now rows.now (record { worker = worker.new; pass = pass.new.view })) }
    ensures counts { OnOk result (Counts (stage_of worker.new pass.new part.new)) }
    ensures few { OnOk result (length part.new.fills.items ≤ 65536) }
    ensures moves { OnOk result (0 < length part.old.source.list → 0 < length part.new.fills.items + pass.new.view.refused) }
    ensures keeps { OnOk result (KeepsShare project.now records.now (record { round = round; worker = pass.old.view.number; turn = 0 }) (stage_of worker.old pass.old part.old) (stage_of worker.new pass.new part.new)) }
{
    let mut cells = OnceCells::new();
    let number = pass.number();
    gate.pass(number);
    for done in 0..MOST_VISITS {
        let next = match part.source.take() {
            Some(next) => next,
            None => return Ok(()),
        };
        let origin = Origin {
            round,
            worker: number,
            turn: done + 1,
        };
        if !take_turn(
            alloc, project, records, words, rows, worker, pass, &mut cells, part, origin, next,
            gate,
        )? {
            return Ok(());
        }
    }
    Ok(())
}
