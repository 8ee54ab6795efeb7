//! Nodes that are closed by the records of others.

ghost use Rattle.std.specs.Prelude.{◌≡◌, ◌≤◌, ◌<◌, All, IfOk};
ghost use Rattle.precedence_tree.specs.Base.{IsBaseOf};
ghost use Rattle.precedence_tree.specs.Node.{StandsFor};
ghost use Rattle.tree_worker.specs.Worker.{IsAtWork};

use crate::nodes::walk;
use crate::workers::begin;
use cutset_store::{CutRecord, Index, SetPlace};
use precedence_tree::Node;
use project_net::Project;
use sched_base::NoMemory;
use search_table::{Pass, RoundTable};
use shared_rows::{OnceCells, Rows};
use std::alloc::Global;
use std::process::Abort;
use std::test::Fail;
use tree_worker::{Cite, Close, TreeWorker, Visited};
use worked_projects::{EntryRow, TWINS, build};

/// The fronts of the twins in one order, and in the other.
const TWIN: &[EntryRow] = &[(1, 1, 0), (2, 1, 0), (3, 1, 0)];

const OTHER_TWIN: &[EntryRow] = &[(1, 1, 0), (3, 1, 0), (2, 1, 0)];

/// Puts a record of the node into the pass's row.
fn show(
    rt: &impl Abort,
    alloc: Global,
    project: &Project,
    node: &Node,
    rows: &Rows<CutRecord>,
    table: &RoundTable,
    pass: &mut Pass,
) -> Result<(), NoMemory>
    requires node { StandsFor project.now node.now }
    requires table { pass.old.table ≡ table.now }
    requires workers { pass.old.view.terms.workers ≡ rows.now.workers }
    requires worker { 1 ≤ pass.old.view.number }
    requires room { pass.old.view.own < rows.now.cells }
{
    let record = CutRecord::of(alloc, project, node)?;
    let shown = Box::new(alloc, record)?;
    match rows.put(table, pass, &mut OnceCells::new(), shown) {
        Ok(_) => Ok(()),
        Err(_) => panic!(rt; "the record came back"),
    }
}

/// An index that has a record of the node alone, or none.
fn index_of(
    rt: &impl Abort,
    alloc: Global,
    project: &Project,
    node: &Node,
    has_record: bool,
) -> Result<Index, NoMemory>
    requires { StandsFor project.now node.now }
    ensures { IfOk result (All (IsBaseOf project.now)) }
{
    let mut index = Index::new(alloc, project);
    if !has_record {
        return Ok(index);
    }
    let own = CutRecord::of(alloc, project, node)?;
    match index.add(own, SetPlace::Unknown) {
        Ok(_) => Ok(index),
        Err(_) => panic!(rt; "there is no room"),
    }
}

/// Why a visit closes the node, if it does.
fn close_of(
    alloc: Global,
    project: &Project,
    worker: &mut TreeWorker,
    table: &RoundTable,
    pass: &mut Pass,
    earlier: &Index,
    rows: &Rows<CutRecord>,
    node: Node,
) -> Result<Option<Close>, NoMemory>
    requires table { pass.old.table ≡ table.now }
    requires work { IsAtWork project.now rows.now (record { worker = worker.old; pass = pass.old.view }) }
    requires unrefused { pass.old.view.refused ≡ 0 }
    requires earlier { All (IsBaseOf project.now) earlier.now }
    requires node { StandsFor project.now node }
{
    let mut cells = OnceCells::new();
    match worker.visit(alloc, project, table, pass, earlier, rows, &mut cells, node)? {
        Visited::Closed(_, close) => Ok(Some(close)),
        Visited::Expanded(..) | Visited::Back(_) => Ok(None),
    }
}

/// Why a visit by worker 2 closes the node, where worker 1 shows a record of the other.
fn closed_beside(
    rt: &impl Abort,
    alloc: Global,
    project: &Project,
    shown: &Node,
    earlier: &Index,
    node: Node,
) -> Result<Option<Close>, NoMemory>
    requires shown { StandsFor project.now shown.now }
    requires earlier { All (IsBaseOf project.now) earlier.now }
    requires node { StandsFor project.now node }
{
    let (table, mut first) = RoundTable::new(alloc, 7, 0, 2)?;
    let rows = Rows::new(alloc, 2, 1)?;
    let (mut worker, mut two) = begin(alloc, project, &table, &mut first, &rows, 2);
    let mut one = table.split(&mut first, 1);
    show(rt, alloc, project, shown, &rows, &table, &mut one)?;
    close_of(
        alloc,
        project,
        &mut worker,
        &table,
        &mut two,
        earlier,
        &rows,
        node,
    )
}

/// Worker 1 shows the twin, of which the index of earlier rounds has a record too or hasn't; worker 2 visits the other.
fn closed_after(
    rt: &impl Abort,
    alloc: Global,
    project: &Project,
    twin: &Node,
    other: Node,
    has_earlier: bool,
) -> Result<Option<Close>, NoMemory>
    requires twin { StandsFor project.now twin.now }
    requires other { StandsFor project.now other }
{
    let earlier = index_of(rt, alloc, project, twin, has_earlier)?;
    closed_beside(rt, alloc, project, twin, &earlier, other)
}

/// Worker 1 shows a front of twins; worker 2, which has no ticket, visits the twins in the other order.
fn close_of_other_twin(
    rt: &impl Abort,
    alloc: Global,
    project: &Project,
    has_earlier: bool,
) -> Result<Option<Close>, Fail> {
    let twin = walk(rt, alloc, project, TWIN)?;
    let other = walk(rt, alloc, project, OTHER_TWIN)?;
    Ok(closed_after(rt, alloc, project, &twin, other, has_earlier)?)
}

fn compare_closes(rt: &impl Abort, alloc: Global, project: &Project) -> Result<(), Fail> {
    let live = Cite::Live {
        worker: 1,
        place: 0,
    };
    for (has_earlier, cite) in [(false, live), (true, Cite::Earlier(0))] {
        let close = close_of_other_twin(rt, alloc, project, has_earlier)?;
        assert_eq!(rt; close, Some(Close::Cutset(cite)));
    }
    Ok(())
}

#[test]
fn records_of_others_close(rt: HostRuntime) -> Result<(), Fail> {
    let project = build(rt.alloc(), &TWINS)?;
    compare_closes(&rt, rt.alloc(), &project)
}

/// Without a ticket the root, which nothing closes, comes back.
fn give_back(rt: &impl Abort, alloc: Global, project: &Project) -> Result<(), Fail> {
    let twin = walk(rt, alloc, project, TWIN)?;
    let close = closed_after(rt, alloc, project, &twin, Node::root(), false)?;
    assert_eq!(rt; close, None);
    Ok(())
}

#[test]
fn a_node_comes_back(rt: HostRuntime) -> Result<(), Fail> {
    let project = build(rt.alloc(), &TWINS)?;
    give_back(&rt, rt.alloc(), &project)
}
