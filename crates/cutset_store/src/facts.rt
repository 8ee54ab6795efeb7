ghost use Rattle.std.specs.Prelude.{◌≡◌, ℕ, ◌-◌, ◌<◌, ◌≤◌, slice_index, length};
ghost use Rattle.rcpsp_model.specs.Project.{IsNonrenewable, nonrenewables};
ghost use Rattle.rcpsp_model.specs.Schedule.{used as used_of_front};
ghost use Rattle.precedence_tree.specs.Base.{IsBaseOf};
ghost use Rattle.precedence_tree.specs.Node.{StandsFor};
ghost use Rattle.cutset_store.specs.Line.{IsRowOf};
ghost use Rattle.cutset_store.specs.Facts.{AreOfRecord, AreOfFront};

use crate::record::CutRecord;
use crate::row::Row;
use precedence_tree::{Active, Node, last_of};
use project_net::Project;

/// What of a record is compared with a node of the same jobs.
#[derive(Clone, Copy)]
pub struct RecordFacts<'a> {
    /// The start of the job that was placed last.
    pub last: u32,
    /// The greatest finish.
    pub end: u32,
    /// What the jobs need of each nonrenewable resource.
    pub used: &'a [u32],
    /// The active jobs, by their finishes.
    pub active: &'a [Active],
}

/// What of a node is compared with the records of its jobs.
#[derive(Clone, Copy)]
pub struct NodeFacts<'a> {
    /// The start of the job that was placed last.
    pub last: u32,
    /// The greatest finish.
    pub end: u32,
    /// What the jobs need of each nonrenewable resource.
    pub used: [u32; 16],
    /// The job that was placed last, where it is active.
    pub newest: Option<Active>,
    /// The other active jobs, by their finishes.
    pub older: &'a [Active],
}

/// The facts of a record, by what it keeps.
pub fn facts_of_record<'a>(project: &Project, a: &'a CutRecord) -> RecordFacts<'a>
    ensures { AreOfRecord project.now a.now result }
{
    project.known();
    let base = a.base();
    RecordFacts {
        last: last_of(base.front.as_slice()),
        end: base.end,
        used: &base.needs.used,
        active: base.active.as_slice(),
    }
}

/// What the record's jobs need: what stands beside its row, or what it keeps where the project has more resources.
fn used_of<'a>(project: &Project, a: &'a CutRecord, beside: &'a [u32]) -> &'a [u32]
    requires { (i : ℕ) → i < length beside.now → slice_index beside.now i ≡ slice_index a.now.needs.used i }
    ensures wide { nonrenewables project.now ≤ length result.now }
    ensures value { (l : ℕ) → IsNonrenewable project.now l → slice_index result.now (l - 1) ≡ slice_index a.now.needs.used (l - 1) }
{
    if beside.len() < project.nonrenewables() as usize {
        &a.base().needs.used
    } else {
        beside
    }
}

/// The facts of a record, by its row and what stands beside it.
pub fn facts_of_row<'a>(
    project: &Project,
    a: &'a CutRecord,
    row: Row,
    needs: &'a [u32],
    active: &'a [Active],
) -> RecordFacts<'a>
    requires record { IsBaseOf project.now a.now }
    requires row { IsRowOf a.now row needs.now active.now }
    ensures { AreOfRecord project.now a.now result }
{
    project.known();
    RecordFacts {
        last: row.last,
        end: row.end,
        used: used_of(project, a, needs),
        active,
    }
}

/// Sets each number to what the node's jobs need of the resource.
fn set_used(project: &Project, node: &Node, numbers: &mut [u32])
    requires node { StandsFor project.now node.now }
    requires size { length numbers.old ≡ 16 }
    ensures { (l : ℕ) → IsNonrenewable project.now l → slice_index numbers.new (l - 1) ≡ used_of_front project.now node.now.front l }
{
    for done in 0..project.nonrenewables() {
        numbers[done as usize] = node.used(project, done + 1);
    }
}

/// The facts of a node.
pub fn facts_of_node<'a>(project: &Project, node: &'a Node) -> NodeFacts<'a>
    requires { StandsFor project.now node.now }
    ensures { AreOfFront project.now node.now.front result }
{
    let mut used = [0; 16];
    set_used(project, node, &mut used);
    NodeFacts {
        last: node.last(),
        end: node.end(),
        used,
        newest: node.newest_active(),
        older: node.older_active(project),
    }
}
