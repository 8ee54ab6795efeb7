ghost use Rattle.std.specs.Prelude.{◌≡◌, ℕ, ◌<◌, ◌≤◌, ◌↔◌, [], ◌∷◌, ◌++◌, length, All, OnOk, OnErr, IfOk, IfErr, IfSome, IfNone, IsNone};
ghost use Rattle.rcpsp_model.specs.Chain.{IsLeast};
ghost use Rattle.rcpsp_model.specs.Dominance.{Dominates};
ghost use Rattle.precedence_tree.specs.Node.{StandsFor};
ghost use Rattle.precedence_tree.specs.Base.{IsBaseOf};
ghost use Rattle.precedence_tree.specs.Frontier.{HasJobs};
ghost use Rattle.cutset_store.specs.Index.{DominatesAt, IsLineOf, fronts_of};

use crate::dominance::beats;
use crate::facts::{facts_of_node, facts_of_row};
use crate::line::Line;
use crate::record::CutRecord;
use crate::row::{active_of, needs_of, row_of};
use crate::table::{SetPlace, Table};
use precedence_tree::Node;
use project_net::Project;
use sched_base::JobSet;
use std::alloc::Global;
use std::marker::Model;

/// Records in the order of adding, of which those with the jobs of a node are found at once.
///
/// What is compared of them stands side by side for all records of the same jobs, so no record is looked at to find one.
#[derive(Drop)]
pub struct Index {
    records: Vec<CutRecord>,
    table: Table,
    width: u8,
}

impl Model for Index {
    ghost use Rattle.std.specs.Prelude.{List};
    ghost use Rattle.precedence_tree.specs.declared.base.Base.{Base};
    ghost use Rattle.cutset_store.specs.Index.{IsIndexed};

    ghost Value = { List Base };

    ghost view = { λ x. x.records.items };

    ghost invariant = { λ x. IsIndexed x.records.items x.width x.table };
}

/// What an index tells of a node.
#[derive(Clone, Copy)]
pub struct Found {
    /// The place of the first record whose front dominates that of the node, if one does.
    pub first: Option<u32>,
    /// Where the index has the rows of the node's jobs.
    pub set: SetPlace,
}

impl Index {
    /// The index without a record, for records of the project; it takes no memory.
    pub fn new(alloc: Global, project: &Project) -> Self
        ensures { result ≡ [] }
    {
        Index {
            records: Vec::new(alloc),
            table: Table::new(alloc),
            width: project.nonrenewables(),
        }
    }

    /// How many records there are.
    pub fn len(&self) -> u32
        ensures { result ≡ length self.now }
    {
        self.records.len() as u32
    }

    /// Appends a record and gives its place, from 0, or hands it back for want of memory and changes nothing.
    ///
    /// Where `find` was asked for the record's jobs, they aren't looked up again.
    pub fn add(&mut self, item: CutRecord, set: SetPlace) -> Result<u32, CutRecord>
        requires { length self.old < 4294967295 }
        ensures ok { OnOk result (self.new ≡ self.old ++ item ∷ []) }
        ensures place { IfOk result (λ place. place ≡ length self.old) }
        ensures back { IfErr result (λ back. back ≡ item) }
        ensures err { OnErr result (self.new ≡ self.old) }
    {
        let place = self.len();
        let alloc = *self.records.allocator();
        if self.records.reserve(1).is_err() {
            return Err(item);
        }
        let base = item.base();
        let row = row_of(base, place);
        let needs = needs_of(base, self.width);
        let active = active_of(base);
        let jobs = item.placed();
        match self.table.enter(alloc, set, jobs, row, needs, active) {
            Ok(()) => {
                self.records.push_reserved(item);
                Ok(place)
            }
            Err(_) => Err(item),
        }
    }

    /// The place of the first record whose front dominates that of the node; only records of its jobs are compared.
    pub fn find(&self, project: &Project, b: &Node) -> Found
        requires records { All (IsBaseOf project.now) self.now }
        requires node { StandsFor project.now b.now }
        ensures first { IfSome result.first (IsLeast (DominatesAt project.now (fronts_of self.now) b.now.front)) }
        ensures none { IsNone result.first ↔ All (λ A. Dominates project.now A b.now.front → ⊥) (fronts_of self.now) }
    {
        let jobs = b.placed();
        match self.table.place_of(jobs) {
            Some(place) => Found {
                first: first_dominating(
                    project,
                    self.records.as_slice(),
                    self.width,
                    &self.table.lines[place],
                    jobs,
                    b,
                ),
                set: SetPlace::At(place),
            },
            None => Found {
                first: None,
                set: SetPlace::Unknown,
            },
        }
    }
}

/// The first place of a record whose front dominates that of the node, where the line is that of its jobs.
fn first_dominating(
    project: &Project,
    records: &[CutRecord],
    width: u8,
    line: &Line,
    jobs: JobSet,
    b: &Node,
) -> Option<u32>
    requires records { All (IsBaseOf project.now) records.now }
    requires node { StandsFor project.now b.now }
    requires jobs { HasJobs b.now.front jobs }
    requires line { IsLineOf records.now width jobs line.now }
    ensures first { IfSome result (IsLeast (DominatesAt project.now (fronts_of records.now) b.now.front)) }
    ensures none { IfNone result ((i : ℕ) → DominatesAt project.now (fronts_of records.now) b.now.front i → ⊥) }
{
    project.known();
    let node = facts_of_node(project, b);
    let rows = line.rows();
    let mut needs = line.needs();
    let mut active = line.active();
    for at in 0..rows.len() {
        let row = rows[at];
        let (own_needs, later_needs) = needs.split_at(width as usize);
        let (own_active, later_active) = active.split_at(row.active as usize);
        let record = &records[row.place as usize];
        let facts = facts_of_row(project, record, row, own_needs, own_active);
        if beats(project, &facts, &node) {
            return Some(row.place);
        }
        needs = later_needs;
        active = later_active;
    }
    None
}
