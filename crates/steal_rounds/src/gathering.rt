// What the workers of a round did, put together.
ghost use Rattle.std.specs.Prelude.{◌≡◌, ◌+◌, [], ◌∷◌, ◌++◌, nat_lt, map, IfOk, OnOk, IfSome};
ghost use Rattle.rcpsp_model.specs.Schedule.{end_of, entries};
ghost use Rattle.search_log.specs.Weights.{Each};
ghost use Rattle.search_table.specs.Views.{joint_view};
ghost use Rattle.node_sources.specs.Seats.{AreSeated};
ghost use Rattle.round_shares.specs.Crew.{starts_from, real_place, real_fate, real_fill, real_record, real_waiting};
ghost use Rattle.steal_rounds.specs.Lists.{part_state};
ghost use Rattle.steal_rounds.specs.Whole.{worked, by_worker, whole_state, better_plan, IsShort, IsOfTable, IsSound, joined_part, AddsMember, joined_views, source_of, all_lists, AddsLeft, IsWholeOf};

use crate::member::Member;
use crate::part::Part;
use cutset_store::CutRecord;
use node_sources::{NodeSource, ROOM, Settled, settle};
use project_net::{Project, Schedule};
use sched_base::{List, NoMemory};
use search_log::{Fill, RowFate};
use search_rounds::{NewRow, PlacedRecord, WaitingNode};
use search_table::{Pass, RoundTable};
use shared_rows::Note;
use std::alloc::Global;
use std::collections::VecDeque;
use tree_worker::LiveNote;

/// A record that a worker published.
#[derive(Drop)]
pub(crate) struct Shown {
    /// The number of the worker.
    pub worker: u32,
    /// The worker's own note of it.
    pub note: Note<CutRecord>,
}

/// What a worker published.
#[derive(Drop)]
pub(crate) struct Published {
    /// The number, from 0, of its first record among all that were made.
    pub first: usize,
    /// Its records, in order.
    pub shown: Vec<Shown>,
}

/// The parts of workers, joined one after another, with their places in the table: the new rows of each worker come behind those
/// of the workers before it.
#[derive(Drop)]
pub(crate) struct Whole {
    pub grown: Vec<NewRow>,
    pub fills: Vec<Fill>,
    /// The numbers, from 0, of the fills that cite a live record.
    pub live: Vec<u32>,
    pub made: Vec<PlacedRecord>,
    pub left: Vec<WaitingNode>,
    /// The live records that are cited, in the order of their fills.
    pub cited: Vec<LiveNote>,
    /// What each worker published, the first worker first.
    pub published: Vec<Published>,
    /// The schedule that ends first, that of the lowest worker among equals.
    pub plan: Option<Schedule>,
}

// A count as a number of 32 bits; there is no room for more.
fn number_of(count: usize) -> Result<u32, NoMemory>
    ensures { IfOk result (λ number. number ≡ count) }
{
    if count > u32::MAX as usize {
        return Err(NoMemory);
    }
    Ok(count as u32)
}

// A sum as a number of 32 bits; there is no room for more.
fn sum_of(number: u32, more: u32) -> Result<u32, NoMemory>
    ensures { IfOk result (λ sum. sum ≡ number + more) }
{
    match number.checked_add(more) {
        Some(sum) => Ok(sum),
        None => Err(NoMemory),
    }
}

// The places in the table of the first new row of each worker, on a table of so many rows.
fn starts_of(alloc: Global, table: u32, members: &[Member]) -> Result<Vec<u32>, NoMemory>
    ensures { IfOk result (λ starts. starts.items ≡ starts_from table (map worked members.now)) }
{
    let mut starts = Vec::with_capacity(alloc, members.len())?;
    let mut next = table;
    for member in members {
        starts.push(next)?;
        let rows = number_of(member.part.grown.as_slice().len())?;
        next = sum_of(next, rows)?;
    }
    Ok(starts)
}

// The place in the table of a place of a part, where the first new row of each worker has these places.
fn table_place(starts: &[u32], place: u32) -> Result<u32, NoMemory>
    ensures { IfOk result (λ p. p ≡ real_place starts.now place) }
{
    if place < ROOM {
        return Ok(place);
    }
    match starts.get((place / ROOM - 1) as usize) {
        Some(start) => sum_of(*start, place % ROOM),
        None => Err(NoMemory),
    }
}

fn table_fate(starts: &[u32], fate: RowFate) -> Result<RowFate, NoMemory>
    ensures { IfOk result (λ f. f ≡ real_fate starts.now fate) }
{
    match fate {
        RowFate::Expanded { count, first } => {
            let first = table_place(starts, first)?;
            Ok(RowFate::Expanded { count, first })
        }
        RowFate::Cited(place) => {
            let place = table_place(starts, place)?;
            Ok(RowFate::Cited(place))
        }
        fate => Ok(fate),
    }
}

/// How many items the parts of all workers have. By it room is taken ahead; nothing else depends on it.
#[derive(Clone, Copy)]
struct Sizes {
    grown: usize,
    fills: usize,
    made: usize,
}

// The sizes of the parts of these workers.
fn sizes_of(members: &[Member]) -> Sizes {
    let mut sizes = Sizes {
        grown: 0,
        fills: 0,
        made: 0,
    };
    for member in members {
        let part = &member.part;
        sizes = Sizes {
            grown: sizes.grown.saturating_add(part.grown.as_slice().len()),
            fills: sizes.fills.saturating_add(part.fills.as_slice().len()),
            made: sizes.made.saturating_add(part.made.as_slice().len()),
        };
    }
    sizes
}

// Appends items to a list that is to have so many in all. Their vector is taken over where they are all.
fn append<T: Drop>(all: &mut Vec<T>, mut more: Vec<T>, size: usize) -> Result<(), NoMemory>
    ensures { OnOk result (all.new.items ≡ all.old.items ++ more.items) }
{
    if all.is_empty() && size <= more.len() {
        *all = more;
        return Ok(());
    }
    all.reserve(size.saturating_sub(all.len()))?;
    all.append(&mut more)?;
    Ok(())
}

// Gives fills their places in the table.
fn place_fills(starts: &[u32], fills: &mut [Fill]) -> Result<(), NoMemory>
    ensures { OnOk result (fills.new ≡ map (real_fill starts.now) fills.old) }
{
    for fill in fills.iter_mut() {
        fill.place = table_place(starts, fill.place)?;
        fill.fate = table_fate(starts, fill.fate)?;
    }
    Ok(())
}

fn add_fills(
    fills: &mut Vec<Fill>,
    starts: &[u32],
    mut more: Vec<Fill>,
    size: usize,
) -> Result<(), NoMemory>
    ensures { OnOk result (fills.new.items ≡ fills.old.items ++ map (real_fill starts.now) more.items) }
{
    place_fills(starts, more.as_mut_slice())?;
    append(fills, more, size)
}

fn add_live(live: &mut Vec<u32>, before: u32, more: &[u32]) -> Result<(), NoMemory>
    ensures { OnOk result (live.new.items ≡ live.old.items ++ map (λ i. before + i) more.now) }
{
    for number in more {
        let number = sum_of(before, *number)?;
        live.push(number)?;
    }
    Ok(())
}

// Gives records their places in the table.
fn place_made(starts: &[u32], made: &mut [PlacedRecord]) -> Result<(), NoMemory>
    ensures { OnOk result (made.new ≡ map (real_record starts.now) made.old) }
{
    for placed in made.iter_mut() {
        placed.place = table_place(starts, placed.place)?;
    }
    Ok(())
}

fn add_made(
    made: &mut Vec<PlacedRecord>,
    starts: &[u32],
    mut more: Vec<PlacedRecord>,
    size: usize,
) -> Result<(), NoMemory>
    ensures { OnOk result (made.new.items ≡ made.old.items ++ map (real_record starts.now) more.items) }
{
    place_made(starts, more.as_mut_slice())?;
    append(made, more, size)
}

// Gives nodes their places in the table.
fn place_left(starts: &[u32], left: &mut [WaitingNode]) -> Result<(), NoMemory>
    ensures { OnOk result (left.new ≡ map (real_waiting starts.now) left.old) }
{
    for waiting in left.iter_mut() {
        waiting.place = table_place(starts, waiting.place)?;
    }
    Ok(())
}

fn add_left(
    left: &mut Vec<WaitingNode>,
    starts: &[u32],
    more: List<WaitingNode>,
    size: usize,
) -> Result<(), NoMemory>
    ensures { OnOk result (left.new.items ≡ left.old.items ++ map (real_waiting starts.now) more) }
{
    let mut more = more.into_vec();
    place_left(starts, more.as_mut_slice())?;
    append(left, more, size)
}

// How many nodes the lists have. By it room is taken ahead.
fn size_of(lists: &[List<WaitingNode>]) -> usize {
    let mut size: usize = 0;
    for list in lists {
        size = size.saturating_add(list.len());
    }
    size
}

fn add_lists(
    left: &mut Vec<WaitingNode>,
    starts: &[u32],
    lists: Vec<List<WaitingNode>>,
    size: usize,
) -> Result<(), NoMemory>
    ensures { OnOk result (left.new.items ≡ left.old.items ++ map (real_waiting starts.now) (all_lists lists.items)) }
{
    let mut lists = VecDeque::from(lists);
    while let Some(list) = lists.pop_front() {
        add_left(left, starts, list, size)?;
    }
    Ok(())
}

// Adds what is left: the nodes that each worker has by itself, and those that nobody took out of a deque.
fn add_all_left(
    alloc: Global,
    left: &mut Vec<WaitingNode>,
    starts: &[u32],
    sources: Vec<NodeSource>,
) -> Result<(), NoMemory>
    requires { AreSeated sources.items }
    ensures { OnOk result (AddsLeft starts.now sources.items left.old.items left.new.items) }
{
    let Settled { lists, rest } = settle(alloc, sources)?;
    let size = size_of(lists.as_slice()).saturating_add(rest.len());
    add_lists(left, starts, lists, size)?;
    add_left(left, starts, rest, size)
}

// Joins a part, apart from what is left, and keeps its source.
fn add_part(
    whole: &mut Whole,
    sources: &mut Vec<NodeSource>,
    starts: &[u32],
    sizes: Sizes,
    part: Part,
) -> Result<(), NoMemory>
    ensures lists { OnOk result (whole_state whole.new ≡ joined_part starts.now (whole_state whole.old) (part_state part)) }
    ensures cited { whole.new.cited ≡ whole.old.cited }
    ensures published { whole.new.published ≡ whole.old.published }
    ensures plan { whole.new.plan ≡ whole.old.plan }
    ensures source { OnOk result (sources.new.items ≡ sources.old.items ++ part.source ∷ []) }
{
    let Part {
        grown,
        fills,
        live,
        made,
        source,
    } = part;
    let before = number_of(whole.fills.as_slice().len())?;
    add_fills(&mut whole.fills, starts, fills, sizes.fills)?;
    add_live(&mut whole.live, before, live.as_slice())?;
    add_made(&mut whole.made, starts, made, sizes.made)?;
    sources.push(source)?;
    append(&mut whole.grown, grown, sizes.grown)
}

// Whether a schedule ends before another.
#[tactic(auto, using(crate::proofs::ShortPlans::short_starts))]
fn ends_before(project: &Project, schedule: &Schedule, other: &Schedule) -> bool
    requires schedule { IsShort project.now schedule.now }
    requires other { IsShort project.now other.now }
    ensures { result ≡ nat_lt (end_of project.now (entries schedule.now)) (end_of project.now (entries other.now)) }
{
    project.end(schedule) < project.end(other)
}

// The schedule that ends earlier, and the first one of two that end together.
fn better(project: &Project, plan: Option<Schedule>, other: Option<Schedule>) -> Option<Schedule>
    requires plan { IfSome plan (IsShort project.now) }
    requires other { IfSome other (IsShort project.now) }
    ensures { result ≡ better_plan project.now plan other }
{
    match (plan, other) {
        (Some(plan), Some(other)) => {
            if ends_before(project, &other, &plan) {
                Some(other)
            } else {
                Some(plan)
            }
        }
        (Some(plan), None) => Some(plan),
        (None, other) => other,
    }
}

// The notes of a worker.
fn shown_by(
    alloc: Global,
    worker: u32,
    notes: List<Note<CutRecord>>,
) -> Result<Vec<Shown>, NoMemory>
    ensures { IfOk result (λ shown. shown.items ≡ map (by_worker worker) notes) }
{
    let mut shown = Vec::with_capacity(alloc, notes.len())?;
    let mut notes = VecDeque::from(notes.into_vec());
    'notes: while let Some(note) = notes.pop_front() {
        shown.push(Shown { worker, note })?;
    }
    Ok(shown)
}

// Joins what a worker did, and its pass, and keeps its source.
fn add_member(
    alloc: Global,
    project: &Project,
    starts: &[u32],
    sizes: Sizes,
    words: &RoundTable,
    first: &mut Pass,
    whole: &mut Whole,
    sources: &mut Vec<NodeSource>,
    member: Member,
) -> Result<(), NoMemory>
    requires table { first.old.table ≡ words.now }
    requires pass { member.pass.table ≡ words.now }
    requires plan { IfSome whole.old.plan (IsShort project.now) }
    requires other { IsSound member → IfSome member.worker.plan (IsShort project.now) }
    ensures table { first.new.table ≡ first.old.table }
    ensures view { first.new.view ≡ joint_view first.old.view member.pass.view }
    ensures sound { OnOk result (IsSound member) }
    ensures joined { OnOk result (AddsMember project.now starts.now member whole.old whole.new) }
    ensures source { OnOk result (sources.new.items ≡ sources.old.items ++ source_of member ∷ []) }
{
    let Member {
        worker,
        pass,
        part,
        failed,
    } = member;
    let number = pass.number();
    words.join(first, pass);
    if failed {
        return Err(NoMemory);
    }
    let made = whole.made.as_slice().len();
    add_part(whole, sources, starts, sizes, part)?;
    let parts = worker.into_parts();
    let shown = shown_by(alloc, number, parts.own)?;
    whole.published.push(Published { first: made, shown })?;
    let mut live = parts.live.into_vec();
    whole.cited.append(&mut live)?;
    whole.plan = better(project, whole.plan.take(), parts.plan);
    Ok(())
}

/// Puts together what workers did on a table of so many rows and what is left, and joins their passes into the first one.
pub(crate) fn gather(
    alloc: Global,
    project: &Project,
    table: u32,
    words: &RoundTable,
    first: &mut Pass,
    members: Vec<Member>,
) -> Result<Whole, NoMemory>
    requires table { first.old.table ≡ words.now }
    requires passes { Each (IsOfTable words.now) members.items }
    requires plans { Each (λ m. IsSound m → IfSome m.worker.plan (IsShort project.now)) members.items }
    requires sources { AreSeated (map source_of members.items) }
    ensures table { first.new.table ≡ first.old.table }
    ensures view { IfOk result (λ whole. first.new.view ≡ joined_views first.old.view members.items) }
    ensures sound { IfOk result (λ whole. Each IsSound members.items) }
    ensures whole { IfOk result (IsWholeOf project.now table members.items) }
{
    let starts = starts_of(alloc, table, members.as_slice())?;
    let sizes = sizes_of(members.as_slice());
    let mut whole = Whole {
        grown: Vec::new(alloc),
        fills: Vec::new(alloc),
        live: Vec::new(alloc),
        made: Vec::new(alloc),
        left: Vec::new(alloc),
        cited: Vec::new(alloc),
        published: Vec::new(alloc),
        plan: None,
    };
    let mut sources = Vec::new(alloc);
    let mut members = VecDeque::from(members);
    while let Some(member) = members.pop_front() {
        add_member(
            alloc,
            project,
            starts.as_slice(),
            sizes,
            words,
            first,
            &mut whole,
            &mut sources,
            member,
        )?;
    }
    add_all_left(alloc, &mut whole.left, starts.as_slice(), sources)?;
    Ok(whole)
}
