ghost use Rattle.std.specs.Prelude.{◌≡◌, ℕ, ◌<◌, ◌≤◌, [], ◌∷◌, ◌++◌, length, All, OnOk, OnErr, IfOk, IfSome, IfNone};
ghost use Rattle.rcpsp_model.specs.Project.{Project as ProjectValue};
ghost use Rattle.rcpsp_model.specs.Tree.{IsLeaf, AreChildren};
ghost use Rattle.precedence_tree.specs.Base.{IsBaseOf};
ghost use Rattle.precedence_tree.specs.Node.{StandsFor};
ghost use Rattle.precedence_tree.specs.Children.{child_fronts, StandsWherePlaced};
ghost use Rattle.cutset_store.specs.Index.{fronts_of};
ghost use Rattle.search_table.specs.declared.view.PassView.{PassView};
ghost use Rattle.search_table.specs.Views.{worker_view};
ghost use Rattle.shared_rows.specs.Rows.{RowsState};
ghost use Rattle.tree_worker.specs.Live.{IsLiveRecord, Listens, CitesOther};
ghost use Rattle.tree_worker.specs.Worker.{new_worker, IsReadyFor, IsAtWork};
ghost use Rattle.tree_worker.specs.Reasons.{IsTested};
ghost use Rattle.tree_worker.specs.Offers.{OffersLeaf};
ghost use Rattle.tree_worker.specs.Publishes.{Expands};
ghost use Rattle.tree_worker.specs.Visits.{StaysOf, Visits};

use crate::answer::{Cite, Close, Visited};
use crate::bounds::closing_bound;
use crate::leaf::offer_leaf;
use crate::live::LiveNote;
use crate::live_index::LiveIndex;
use crate::publishing::publish;
use cutset_store::{CutRecord, Index, SetPlace};
use precedence_tree::{Children, Node, children_of, expand, is_leaf};
use project_net::{Project, Schedule};
use sched_base::{List, NoMemory};
use search_table::{Draw, Pass, RoundTable};
use shared_rows::{Cells, Note, Rows};
use std::alloc::Global;
use std::marker::Model;

/// A worker of one round: what it has found, and what it shows the others.
#[derive(Drop)]
pub struct TreeWorker {
    number: u32,
    own: Index,
    plan: Option<Schedule>,
    notes: Vec<Note<CutRecord>>,
    live: Vec<LiveNote>,
    stopped: bool,
    index: LiveIndex,
}

impl Model for TreeWorker {
    ghost use Rattle.tree_worker.specs.Worker.{WorkerState};

    ghost Value = { WorkerState };

    ghost view = { λ w. record { number = w.number; expanded = w.own; plan = w.plan; notes = w.notes.items; live = w.live.items; stopped = w.stopped; heard = w.index.records.items } };
}

/// What a worker ends with.
#[derive(Drop)]
pub struct WorkerParts {
    /// The schedule of the leaf whose end is the least that the worker offered, if it offered one.
    pub plan: Option<Schedule>,
    /// A note of each record that it published, in order.
    pub own: List<Note<CutRecord>>,
    /// The records of other workers by which it closed nodes, in order.
    pub live: List<LiveNote>,
}

/// What bounds and records say of a node before other workers are asked.
#[derive(Clone, Copy)]
pub(crate) enum Tested {
    /// It is closed.
    Closes(Close),
    /// Nothing closes it. This is where the worker's own index has the rows of its jobs.
    Passes(SetPlace),
}

/// Appends a record to an index.
fn keep(index: &mut Index, item: CutRecord, set: SetPlace) -> Result<(), NoMemory>
    requires { length index.old < 4294967295 }
    ensures { OnOk result (index.new ≡ index.old ++ item ∷ []) }
{
    match index.add(item, set) {
        Ok(_) => Ok(()),
        Err(_) => Err(NoMemory),
    }
}

impl TreeWorker {
    /// A worker that has done nothing, for records of the project; it takes no memory.
    ///
    /// With a pass of its number, 1 or more, that was just split off, it is at work on the rows of the round: so many rows as
    /// workers, and in each at least as many cells as the quota.
    pub fn new(alloc: Global, project: &Project, number: u32) -> Self
        ensures new { result ≡ new_worker number }
        ensures work { (P : ProjectValue) (rows : RowsState) (v : PassView) → IsReadyFor rows number v → IsAtWork P rows (record { worker = result; pass = worker_view number v }) }
    {
        TreeWorker {
            number,
            own: Index::new(alloc, project),
            plan: None,
            notes: Vec::new(alloc),
            live: Vec::new(alloc),
            stopped: false,
            index: LiveIndex::new(alloc),
        }
    }

    /// Offers the end of a leaf, and keeps its schedule, where the end is less than the best that was loaded.
    fn offer(
        &mut self,
        alloc: Global,
        project: &Project,
        table: &RoundTable,
        pass: &mut Pass,
        node: &Node,
        best: u64,
    ) -> Result<(), NoMemory>
        requires table { pass.old.table ≡ table.now }
        requires node { StandsFor project.now node.now }
        requires leaf { IsLeaf project.now node.now.front }
        requires loaded { pass.old.view.least_seen ≡ best }
        ensures table { pass.new.table ≡ pass.old.table }
        ensures offers { OnOk result (OffersLeaf project.now node.now.front best pass.old.view pass.new.view self.old.plan self.new.plan) }
        ensures view { pass.new.view ≡ record pass.old.view { offers = pass.new.view.offers; least_seen = pass.new.view.least_seen } }
        ensures err { OnErr result (pass.new.view ≡ pass.old.view) }
        ensures lower { pass.new.view.least_seen ≤ pass.old.view.least_seen }
        ensures worker { self.new ≡ record self.old { plan = self.new.plan } }
    {
        offer_leaf(alloc, project, table, pass, node, best, &mut self.plan)
    }

    /// What bounds and records say of a node that isn't a leaf: first a bound, then the index of earlier rounds, and then the
    /// worker's own.
    fn tested(&self, project: &Project, earlier: &Index, node: &Node, best: u64) -> Tested
        requires node { StandsFor project.now node.now }
        requires earlier { All (IsBaseOf project.now) earlier.now }
        requires own { All (IsBaseOf project.now) self.now.expanded }
        ensures { IsTested project.now (fronts_of earlier.now) (fronts_of self.now.expanded) best node.now.front result }
    {
        match closing_bound(project, node, best) {
            Some(close) => return Tested::Closes(close),
            None => (),
        }
        match earlier.find(project, node).first {
            Some(place) => return Tested::Closes(Close::Cutset(Cite::Earlier(place))),
            None => (),
        }
        let own = self.own.find(project, node);
        match own.first {
            Some(number) => Tested::Closes(Close::Cutset(Cite::Own(number))),
            None => Tested::Passes(own.set),
        }
    }

    /// A live record that closes the node, if there is room for its note.
    fn cited_live<C: Cells<CutRecord>>(
        &mut self,
        alloc: Global,
        project: &Project,
        rows: &Rows<CutRecord>,
        table: &RoundTable,
        pass: &mut Pass,
        cells: &mut C,
        node: &Node,
    ) -> Option<Cite>
        requires table { pass.old.table ≡ table.now }
        requires workers { pass.old.view.terms.workers ≡ rows.now.workers }
        requires heard { All (IsLiveRecord project.now rows.now pass.old.view.number) self.old.heard }
        requires node { StandsFor project.now node.now }
        ensures table { pass.new.table ≡ pass.old.table }
        ensures listens { Listens pass.old.view pass.new.view }
        ensures worker { self.new ≡ record self.old { live = self.new.live; heard = self.new.heard } }
        ensures heard { All (IsLiveRecord project.now rows.now pass.old.view.number) self.new.heard }
        ensures some { IfSome result (CitesOther project.now rows.now pass.new.view node.now.front self.old.live self.new.live) }
        ensures none { IfNone result (self.new.live ≡ self.old.live) }
        ensures refused_later { C.refused cells.old ≤ C.refused cells.new }
        ensures empty_later { C.empty cells.old ≤ C.empty cells.new }
    {
        if self.live.reserve(1).is_err() {
            return None;
        }
        self.index.take_in(rows, table, pass, cells);
        match self
            .index
            .find(alloc, project, rows, table, pass, cells, node)
        {
            Some(note) => {
                let cite = Cite::Live {
                    worker: note.worker,
                    place: note.place,
                };
                self.live.push_reserved(note);
                Some(cite)
            }
            None => None,
        }
    }

    /// Expands a node for which a ticket was won: its children, in order, and its record, which is kept, and then published.
    /// The record is three times that of one block.
    fn expand_node<C: Cells<CutRecord>>(
        &mut self,
        alloc: Global,
        project: &Project,
        rows: &Rows<CutRecord>,
        table: &RoundTable,
        pass: &mut Pass,
        cells: &mut C,
        node: &Node,
        set: SetPlace,
    ) -> Result<(Children, CutRecord), NoMemory>
        requires table { pass.old.table ≡ table.now }
        requires workers { pass.old.view.terms.workers ≡ rows.now.workers }
        requires worker { 1 ≤ pass.old.view.number }
        requires room { pass.old.view.own < rows.now.cells }
        requires few { length self.old.expanded < rows.now.cells }
        requires node { StandsFor project.now node.now }
        ensures table { pass.new.table ≡ pass.old.table }
        ensures err { OnErr result (pass.new.view ≡ pass.old.view) }
        ensures children { IfOk result (λ made. AreChildren project.now node.now.front (child_fronts made.0)) }
        ensures stand { IfOk result (λ made. All (StandsWherePlaced project.now) made.0) }
        ensures expands { IfOk result (λ made. Expands project.now rows.now node.now.front made.1 (C.refused cells.old) (C.refused cells.new) pass.old.view pass.new.view self.old self.new) }
        ensures refused_later { C.refused cells.old ≤ C.refused cells.new }
        ensures empty_later { C.empty cells.old ≤ C.empty cells.new }
    {
        let _most = rows.cells();
        let expansion = expand(alloc, project, node)?;
        let children = children_of(alloc, project, &expansion)?;
        let record = CutRecord::of_expanded(&expansion)?;
        let copy = CutRecord::of_expanded(&expansion)?;
        let shown = Box::new(alloc, copy)?;
        let known = CutRecord::of_expanded(&expansion)?;
        self.notes.reserve(1)?;
        keep(&mut self.own, record, set)?;
        self.stopped = publish(
            self.stopped,
            rows,
            table,
            pass,
            cells,
            shown,
            &mut self.notes,
        );
        Ok((children, known))
    }

    /// Visits a node: closes it, expands it with a ticket, or gives it back where there is none. It asks in this order
    /// whether it is a leaf, whose end is then offered if it is less than the best that was loaded; for a bound that reaches
    /// this best; for a front that dominates it, first in the index of earlier rounds, then among those that the worker
    /// expanded, and last among those that other workers publish; and for a ticket.
    ///
    /// The pass is that of the worker, and was refused no ticket; rows and table are those of its round.
    ///
    /// # Errors
    ///
    /// [`NoMemory`] where memory was refused. The node is dropped then, and in this call nothing was offered and nothing
    /// published; a ticket that was drawn stays drawn. The worker may visit no more: nothing is promised of what it ends with.
    pub fn visit<C: Cells<CutRecord>>(
        &mut self,
        alloc: Global,
        project: &Project,
        table: &RoundTable,
        pass: &mut Pass,
        earlier: &Index,
        rows: &Rows<CutRecord>,
        cells: &mut C,
        node: Node,
    ) -> Result<Visited, NoMemory>
        requires table { pass.old.table ≡ table.now }
        requires work { IsAtWork project.now rows.now (record { worker = self.old; pass = pass.old.view }) }
        requires unrefused { pass.old.view.refused ≡ 0 }
        requires earlier { All (IsBaseOf project.now) earlier.now }
        requires node { StandsFor project.now node }
        ensures table { pass.new.table ≡ pass.old.table }
        ensures stays { StaysOf pass.old.view pass.new.view }
        ensures visits { IfOk result (Visits project.now (fronts_of earlier.now) rows.now (C.refused cells.old) (C.refused cells.new) node (record { worker = self.old; pass = pass.old.view }) (record { worker = self.new; pass = pass.new.view })) }
        ensures work { OnOk result (IsAtWork project.now rows.now (record { worker = self.new; pass = pass.new.view })) }

        // What was published in this call is the record of a node that this call answers to have expanded.
        ensures silent { OnErr result (pass.new.view.own ≡ pass.old.view.own) }
        ensures unoffered { OnErr result (pass.new.view.offers ≡ pass.old.view.offers) }

        ensures refused_later { C.refused cells.old ≤ C.refused cells.new }
        ensures empty_later { C.empty cells.old ≤ C.empty cells.new }
    {
        let best = table.best(pass);
        if is_leaf(project, &node) {
            self.offer(alloc, project, table, pass, &node, best)?;
            return Ok(Visited::Closed(node, Close::Leaf));
        }
        let set = match self.tested(project, earlier, &node, best) {
            Tested::Closes(close) => return Ok(Visited::Closed(node, close)),
            Tested::Passes(set) => set,
        };
        match self.cited_live(alloc, project, rows, table, pass, cells, &node) {
            Some(cite) => return Ok(Visited::Closed(node, Close::Cutset(cite))),
            None => (),
        }
        match table.draw(pass) {
            Draw::Ticket => {
                let (children, known) = self.expand_node(
                    alloc, project, rows, table, pass, cells, &node, set,
                )?;
                Ok(Visited::Expanded(node, children, known))
            }
            Draw::Spent(_) => Ok(Visited::Back(node)),
        }
    }

    /// What the worker ends with; it takes no memory. [`TreeWorker::visit`] says what that is after visits that answered.
    pub fn into_parts(self) -> WorkerParts
        ensures plan { result.plan ≡ self.plan }
        ensures own { result.own ≡ self.notes }
        ensures live { result.live ≡ self.live }
    {
        let TreeWorker {
            number: _,
            own: _,
            plan,
            notes,
            live,
            stopped: _,
            index: _,
        } = self;
        WorkerParts {
            plan,
            own: List::from_vec(notes),
            live: List::from_vec(live),
        }
    }
}
