// A search between its rounds.
ghost use Rattle.std.specs.Prelude.{◌≡◌, ℕ, ◌+◌, ◌<◌, ◌≤◌, ◌↔◌, List as Items, [], ◌∷◌, ◌++◌, length, map, All, IfOk, OnOk, IfSome, IsTrue};
ghost use Rattle.rcpsp_model.specs.Tree.{LeavesBudgets};
ghost use Rattle.rcpsp_model.specs.Claim.{HasDuration};
ghost use Rattle.search_log.specs.Stands.{fill_rows, fill_origins};
ghost use Rattle.search_log.specs.Lean.{end_number, most_in_round};
ghost use Rattle.precedence_tree.specs.Base.{IsBaseOf};
ghost use Rattle.precedence_tree.specs.Node.{StandsFor};
ghost use Rattle.search_rounds.specs.declared.round.WaitingNode.{WaitingNode as WaitingState};
ghost use Rattle.search_rounds.specs.Going.{Goes, work, best_after, holding, AreTerms, HasRun};

use crate::best::{Best, number_of};
use crate::round::{NewRow, PlacedRecord, Records, RoundResult, Terms, WaitingNode};
use cutset_store::{Index, SetPlace};
use precedence_tree::Node;
use project_net::{Project, Schedule};
use sched_base::{List, NoMemory};
use search_log::{Fill, Origin, Row, RowFate, Table, fill};
use std::alloc::Global;
use std::mem::replace;

/// How many nodes the first round may expand, and a later one.
const MOST_IN_FIRST: u32 = 32;

const MOST_IN_LATER: u32 = 4096;

/// A search between its rounds.
#[derive(Drop)]
pub struct Search {
    /// The rows of all rounds.
    pub table: Table,
    /// The nodes that wait.
    pub frontier: List<WaitingNode>,
    /// The fronts that were expanded.
    pub records: Records,
    /// The end of the plan with which the search began, if there was one.
    pub first: Option<u32>,
    /// The best at the start of each round, in periods; 4,294,967,295 where there was none.
    pub starts: List<u32>,
    /// The best now.
    pub best: Best,
    /// How many nodes were expanded.
    pub used: u32,
}

/// How many nodes the round of this number may expand, where so many expansions are left.
fn quota_of(number: u32, rest: u32) -> u32
    requires number { 1 ≤ number }
    requires rest { 0 < rest }
    ensures few { result ≤ rest }
    ensures some { 0 < result }
    ensures most { result ≤ most_in_round number }
{
    let most = if number == 1 {
        MOST_IN_FIRST
    } else {
        MOST_IN_LATER
    };
    if rest < most { rest } else { most }
}

// Notes the best at the start of a round.
fn note_start(starts: &mut List<u32>, best: Option<u32>) -> Result<(), NoMemory>
    ensures { OnOk result (starts.new ≡ starts.old ++ end_number best ∷ []) }
{
    match starts.push(number_of(best)) {
        Ok(()) => Ok(()),
        Err(_) => Err(NoMemory),
    }
}

// Appends rows.
fn extend(table: &mut Table, grown: &[NewRow]) -> Result<(), NoMemory>
    requires rows { length table.old.rows + length grown.now ≤ 4294967295 }
    requires origins { length table.old.origins ≡ length table.old.rows }
    ensures rows { OnOk result (table.new.rows ≡ table.old.rows ++ map (λ n. n.row) grown.now) }
    ensures origins { OnOk result (table.new.origins ≡ table.old.origins ++ map (λ n. n.origin) grown.now) }
{
    for new in grown {
        table.push(new.row, new.origin)?;
    }
    Ok(())
}

// The table after a round.
fn settle(table: &mut Table, grown: &[NewRow], fills: &[Fill]) -> Result<(), NoMemory>
    requires rows { length table.old.rows + length grown.now ≤ 4294967295 }
    requires origins { length table.old.origins ≡ length table.old.rows }
    requires places { All (λ f. f.place < length table.old.rows + length grown.now) fills.now }
    ensures rows { OnOk result (table.new.rows ≡ fill_rows (table.old.rows ++ map (λ n. n.row) grown.now) fills.now) }
    ensures origins { OnOk result (table.new.origins ≡ fill_origins (table.old.origins ++ map (λ n. n.origin) grown.now) fills.now) }
{
    extend(table, grown)?;
    fill(table, fills);
    Ok(())
}

// One more record.
fn keep_one(records: &mut Records, made: PlacedRecord) -> Result<(), NoMemory>
    requires { length records.old.index < 4294967295 }
    ensures index { OnOk result (records.new.index ≡ records.old.index ++ made.known ∷ []) }
    ensures places { OnOk result (records.new.places ≡ records.old.places ++ made.place ∷ []) }
{
    let PlacedRecord { place, known } = made;
    match records.index.add(known, SetPlace::Unknown) {
        Ok(_) => (),
        Err(_) => return Err(NoMemory),
    }
    match records.places.push(place) {
        Ok(()) => Ok(()),
        Err(_) => Err(NoMemory),
    }
}

// The records after a round.
fn keep(records: &mut Records, made: List<PlacedRecord>) -> Result<(), NoMemory>
    requires { length records.old.index + length made ≤ 4294967295 }
    ensures index { OnOk result (records.new.index ≡ records.old.index ++ map (λ m. m.known) made) }
    ensures places { OnOk result (records.new.places ≡ records.old.places ++ map (λ m. m.place) made) }
{
    for one in made.into_vec() {
        keep_one(records, one)?;
    }
    Ok(())
}

// The best after a round, which brings a schedule where it fell.
fn brought(best: Best, end: Option<u32>, plan: Option<Schedule>) -> Best
    ensures { result ≡ best_after best end plan }
{
    match plan {
        Some(plan) => Best {
            end,
            plan: Some(plan),
        },
        None => best,
    }
}

const ROOT: Row = Row {
    start: None,
    fate: RowFate::Open,
    job: 0,
    mode: 0,
};

const NO_ORIGIN: Origin = Origin {
    round: 0,
    worker: 0,
    turn: 0,
};

impl Search {
    /// A search before its first round, with the best to begin with: the root waits.
    ///
    /// # Errors
    ///
    /// [`NoMemory`] where the row of the root, or the root, can't be kept.
    pub fn begin(alloc: Global, project: &Project, best: Best) -> Result<Search, NoMemory>
        requires budgets { LeavesBudgets project.now [] }
        requires best { HasDuration project.now best.end best.plan }
        requires soon { IfSome best.end (λ end. end ≤ 1290000) }
        ensures goes { IfOk result (λ s. (workers nodes : ℕ) → Goes project.now workers nodes s) }
        ensures first { IfOk result (λ s. s.first ≡ best.end) }
    {
        let mut table = Table::new(alloc);
        table.push(ROOT, NO_ORIGIN)?;
        let mut frontier = Vec::new(alloc);
        frontier.push(WaitingNode {
            place: 0,
            node: Node::root(),
        })?;
        Ok(Search {
            table,
            frontier: List::from_vec(frontier),
            records: Records {
                index: Index::new(alloc, project),
                places: List::new(alloc),
            },
            first: best.end,
            starts: List::new(alloc),
            best,
            used: 0,
        })
    }

    /// Whether a round is to run: a node waits, and fewer nodes were expanded than are allowed, which are so many.
    pub fn has_more(&self, nodes: u32) -> bool
        ensures { IsTrue result ↔ ((0 < length self.now.frontier) × (self.now.used < nodes)) }
    {
        0 < self.frontier.len() && self.used < nodes
    }

    /// The terms of the next round, where so many nodes may be expanded, 100,000 at most. With them comes what a round may rely on:
    /// of the nodes that wait, of the records, and of the room in the table.
    pub fn next_terms(&self, project: &Project, nodes: u32) -> Terms
        requires few { nodes ≤ 100000 }
        requires more { self.now.used < nodes }
        requires goes { (workers : ℕ) × Goes project.now workers nodes self.now }
        ensures terms { AreTerms nodes self.now result }
        ensures number { 1 ≤ result.number }
        ensures quota { 0 < result.quota }
        ensures few { result.quota ≤ most_in_round result.number }
        ensures soon { IfSome result.best (λ end. end ≤ 1290000) }
        ensures fronts { All (λ w. StandsFor project.now w.node) self.now.frontier }
        ensures records { All (IsBaseOf project.now) self.now.records.index }
        ensures places { length self.now.records.places ≡ length self.now.records.index }
        ensures room { length self.now.table.rows ≤ 51200001 }
    {
        project.known();
        let number = self.starts.len() as u32 + 1;
        Terms {
            number,
            quota: quota_of(number, nodes - self.used),
            best: self.best.end,
        }
    }

    /// The nodes that wait, for a round to take. The search has none until [`Search::take_round`].
    pub fn take_frontier(&mut self, alloc: Global) -> List<WaitingNode>
        ensures frontier { result ≡ self.old.frontier }
        ensures rest { self.new ≡ holding [] self.old }
    {
        replace(&mut self.frontier, List::new(alloc))
    }

    /// The search after a round that took its frontier, on the terms of [`Search::next_terms`].
    ///
    /// # Errors
    ///
    /// [`NoMemory`] where the table or the records can't grow.
    pub fn take_round(
        self,
        alloc: Global,
        project: &Project,
        terms: Terms,
        ended: RoundResult,
    ) -> Result<Search, NoMemory>
        requires { (workers : ℕ) × (nodes : ℕ) × (frontier : Items WaitingState) × HasRun project.now workers nodes self frontier terms ended }
        ensures goes { IfOk result (λ s. (workers nodes : ℕ) (frontier : Items WaitingState) → HasRun project.now workers nodes self frontier terms ended → Goes project.now workers nodes s) }
        ensures first { IfOk result (λ s. s.first ≡ self.first) }
        ensures nearer { IfOk result (λ s. (workers nodes : ℕ) (frontier : Items WaitingState) → HasRun project.now workers nodes self frontier terms ended → work nodes s < work nodes (holding frontier self)) }
    {
        let Search {
            mut table,
            frontier: _,
            mut records,
            first,
            mut starts,
            best,
            used,
        } = self;
        project.known();
        let RoundResult {
            grown,
            fills,
            left,
            made,
            best: end,
            plan,
            used: more,
        } = ended;
        note_start(&mut starts, terms.best)?;
        settle(&mut table, grown.as_slice(), fills.as_slice())?;
        keep(&mut records, made)?;
        Ok(Search {
            table,
            frontier: left,
            records,
            first,
            starts,
            best: brought(best, end, plan),
            used: used + more,
        })
    }
}
