ghost use Rattle.std.specs.Prelude.{◌≡◌, ◌≢◌, ℕ, ◌-◌, ◌≤◌, ◌<◌, [], length, max, slice_index, slice_set, All, IfSome};
ghost use Rattle.precedence_tree.specs.Node.{StandsFor};
ghost use Rattle.shared_rows.specs.Rows.{RowsState};
ghost use Rattle.tree_worker.specs.Live.{IsOfOther, IsLiveRecord, StayLive, Listens, IsCited};

use crate::live::{Judgement, LiveNote, LiveRecord, citation};
use cutset_store::CutRecord;
use precedence_tree::{Node, last_of};
use project_net::Project;
use search_table::{Pass, RoundTable};
use shared_rows::{Cells, Look, Note, Rows};
use std::alloc::Global;
use std::collections::HashMap;

/// How many workers a round has at most.
const MOST_WORKERS: usize = 32;

/// The live records that a worker has taken in, of which those with the jobs of a node are found at once.
///
/// A record for which there is no room is left out, and isn't met again.
#[derive(Drop)]
pub struct LiveIndex {
    /// The records in the order of taking in.
    pub records: Vec<LiveRecord>,
    /// For each set of jobs, by its bits, the number of the record of them that was taken in last.
    pub newest: HashMap<u128, usize>,
    /// How many places of each worker's row were looked at, that of worker 1 first.
    pub taken: [u64; MOST_WORKERS],
}

/// From which place on a worker's row wasn't looked at yet; from now on it is, up to the count.
fn looked_at(taken: &mut [u64], worker: u32, count: u64) -> u64
    requires { 1 ≤ worker }
    ensures from { worker ≤ length taken.old → result ≡ slice_index taken.old (worker - 1) }
    ensures looked { worker ≤ length taken.old → taken.new ≡ slice_set taken.old (worker - 1) (max (slice_index taken.old (worker - 1)) count) }
    ensures none { length taken.old < worker → result ≡ count }
{
    let at = worker as usize - 1;
    if at >= taken.len() {
        return count;
    }
    let from = taken[at];
    taken[at] = from.max(count);
    from
}

/// The note of a record, read now, whose front dominates that of the node: of the newest record of the node's jobs, or of one
/// before it.
fn found_among<C: Cells<CutRecord>>(
    alloc: Global,
    project: &Project,
    rows: &Rows<CutRecord>,
    table: &RoundTable,
    pass: &mut Pass,
    cells: &mut C,
    records: &mut [LiveRecord],
    newest: Option<usize>,
    node: &Node,
) -> Option<LiveNote>
    requires table { pass.old.table ≡ table.now }
    requires workers { pass.old.view.terms.workers ≡ rows.now.workers }
    requires records { All (IsLiveRecord project.now rows.now pass.old.view.number) records.old }
    requires node { StandsFor project.now node.now }
    ensures table { pass.new.table ≡ pass.old.table }
    ensures listens { Listens pass.old.view pass.new.view }
    ensures records { All (IsLiveRecord project.now rows.now pass.old.view.number) records.new }
    ensures cited { IfSome result (IsCited project.now rows.now pass.new.view node.now.front) }
    ensures refused_later { C.refused cells.old ≤ C.refused cells.new }
    ensures empty_later { C.empty cells.old ≤ C.empty cells.new }
{
    let mut next = newest;
    for _ in 0..records.len() {
        let Some(number) = next else {
            return None;
        };
        if number >= records.len() {
            return None;
        }
        let live = &mut records[number];
        next = live.before;
        match citation(alloc, project, rows, table, pass, cells, live, node) {
            Some(note) => return Some(note),
            None => (),
        }
    }
    None
}

impl LiveIndex {
    /// The index without a record; it takes no memory.
    pub fn new(alloc: Global) -> Self
        ensures { result.records.items ≡ [] }
    {
        LiveIndex {
            records: Vec::new(alloc),
            newest: HashMap::new(alloc),
            taken: [0; MOST_WORKERS],
        }
    }

    /// Keeps a record that was read, if there is room.
    fn keep(&mut self, worker: u32, place: u64, shown: &CutRecord, note: Note<CutRecord>)
        ensures { (rows : RowsState) (number : ℕ) → IsOfOther rows number worker place note → StayLive rows number self.old.records.items self.new.records.items }
    {
        if self.records.reserve(1).is_err() {
            return;
        }
        let jobs = shown.placed();
        let base = shown.base();
        let before = self.newest.get(&jobs.0).copied();
        let number = self.records.len();
        if self.newest.insert(jobs.0, number).is_err() {
            return;
        }
        self.records.push_reserved(LiveRecord {
            worker,
            place,
            last: last_of(base.front.as_slice()),
            end: base.end,
            judgement: Judgement::Open,
            before,
            note,
        });
    }

    /// Takes in the record at a place of another worker's row, if it can be read.
    fn take_in_place<C: Cells<CutRecord>>(
        &mut self,
        rows: &Rows<CutRecord>,
        table: &RoundTable,
        pass: &mut Pass,
        cells: &mut C,
        worker: u32,
        place: u64,
    )
        requires table { pass.old.table ≡ table.now }
        requires workers { pass.old.view.terms.workers ≡ rows.now.workers }
        requires low { 1 ≤ worker }
        requires high { worker ≤ rows.now.workers }
        requires other { worker ≢ pass.old.view.number }
        requires place { place < rows.now.cells }
        ensures table { pass.new.table ≡ pass.old.table }
        ensures listens { Listens pass.old.view pass.new.view }
        ensures records { StayLive rows.now pass.old.view.number self.old.records.items self.new.records.items }
        ensures refused_later { C.refused cells.old ≤ C.refused cells.new }
        ensures empty_later { C.empty cells.old ≤ C.empty cells.new }
    {
        match rows.read(table, pass, cells, worker, place) {
            Look::Found(shown, note) => self.keep(worker, place, shown, note),
            Look::Beyond(_) | Look::Unset => (),
        }
    }

    /// Takes in what a worker has published since it was looked at last, if it is another.
    fn take_in_row<C: Cells<CutRecord>>(
        &mut self,
        rows: &Rows<CutRecord>,
        table: &RoundTable,
        pass: &mut Pass,
        cells: &mut C,
        worker: u32,
    )
        requires table { pass.old.table ≡ table.now }
        requires workers { pass.old.view.terms.workers ≡ rows.now.workers }
        requires low { 1 ≤ worker }
        requires high { worker ≤ rows.now.workers }
        ensures table { pass.new.table ≡ pass.old.table }
        ensures listens { Listens pass.old.view pass.new.view }
        ensures records { StayLive rows.now pass.old.view.number self.old.records.items self.new.records.items }
        ensures refused_later { C.refused cells.old ≤ C.refused cells.new }
        ensures empty_later { C.empty cells.old ≤ C.empty cells.new }
    {
        let own = pass.number();
        if worker == own {
            return;
        }
        let count = table.published(pass, worker);
        let until = count.min(u64::from(rows.cells()));
        let from = looked_at(&mut self.taken, worker, until);
        for place in from..until {
            self.take_in_place(rows, table, pass, cells, worker, place);
        }
    }

    /// Takes in what the other workers have published since they were looked at last.
    pub fn take_in<C: Cells<CutRecord>>(
        &mut self,
        rows: &Rows<CutRecord>,
        table: &RoundTable,
        pass: &mut Pass,
        cells: &mut C,
    )
        requires table { pass.old.table ≡ table.now }
        requires workers { pass.old.view.terms.workers ≡ rows.now.workers }
        ensures table { pass.new.table ≡ pass.old.table }
        ensures listens { Listens pass.old.view pass.new.view }
        ensures records { StayLive rows.now pass.old.view.number self.old.records.items self.new.records.items }
        ensures refused_later { C.refused cells.old ≤ C.refused cells.new }
        ensures empty_later { C.empty cells.old ≤ C.empty cells.new }
    {
        for done in 0..rows.workers() {
            self.take_in_row(rows, table, pass, cells, done + 1);
        }
    }

    /// The note of a record, read now, whose front dominates that of the node; only records of its jobs are looked at.
    pub fn find<C: Cells<CutRecord>>(
        &mut self,
        alloc: Global,
        project: &Project,
        rows: &Rows<CutRecord>,
        table: &RoundTable,
        pass: &mut Pass,
        cells: &mut C,
        node: &Node,
    ) -> Option<LiveNote>
        requires table { pass.old.table ≡ table.now }
        requires workers { pass.old.view.terms.workers ≡ rows.now.workers }
        requires records { All (IsLiveRecord project.now rows.now pass.old.view.number) self.old.records.items }
        requires node { StandsFor project.now node.now }
        ensures table { pass.new.table ≡ pass.old.table }
        ensures listens { Listens pass.old.view pass.new.view }
        ensures records { All (IsLiveRecord project.now rows.now pass.old.view.number) self.new.records.items }
        ensures cited { IfSome result (IsCited project.now rows.now pass.new.view node.now.front) }
        ensures refused_later { C.refused cells.old ≤ C.refused cells.new }
        ensures empty_later { C.empty cells.old ≤ C.empty cells.new }
    {
        let newest = self.newest.get(&node.placed().0).copied();
        let records = self.records.as_mut_slice();
        found_among(
            alloc, project, rows, table, pass, cells, records, newest, node,
        )
    }
}
