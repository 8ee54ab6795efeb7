//! A worker that begins a round, and one visit of it.

ghost use Rattle.std.specs.Prelude.{◌≡◌, ◌≤◌, All, OnOk};
ghost use Rattle.rcpsp_model.specs.Project.{Project as ProjectValue};
ghost use Rattle.precedence_tree.specs.Base.{IsBaseOf};
ghost use Rattle.precedence_tree.specs.Node.{StandsFor};
ghost use Rattle.precedence_tree.specs.Children.{StandsWherePlaced};
ghost use Rattle.search_table.specs.Lists.{Lacks};
ghost use Rattle.search_table.specs.Views.{with_worker};
ghost use Rattle.tree_worker.specs.Worker.{IsAtWork};

use cutset_store::{CutRecord, Index};
use precedence_tree::{Child, Children, Node};
use project_net::Project;
use sched_base::NoMemory;
use search_table::{Pass, RoundTable};
use shared_rows::{Cells, Rows};
use std::alloc::Global;
use std::process::Abort;
use tree_worker::{Close, TreeWorker, Visited};

/// A worker that has done nothing, with its pass.
pub fn begin(
    alloc: Global,
    project: &Project,
    table: &RoundTable,
    first: &mut Pass,
    rows: &Rows<CutRecord>,
    number: u32,
) -> (TreeWorker, Pass)
    requires table { first.old.table ≡ table.now }
    requires first { first.old.view.number ≡ 0 }
    requires low { 1 ≤ number }
    requires high { number ≤ first.old.view.terms.workers }
    requires once { Lacks first.old.view.split_off number }
    requires workers { first.old.view.terms.workers ≡ rows.now.workers }
    requires room { first.old.view.terms.quota ≤ rows.now.cells }
    ensures table { result.1.table ≡ table.now }
    ensures work { IsAtWork project.now rows.now (record { worker = result.0; pass = result.1.view }) }
    ensures unrefused { result.1.view.refused ≡ 0 }
    ensures split_table { first.new.table ≡ first.old.table }
    ensures split { first.new.view ≡ with_worker number first.old.view }
{
    let pass = table.split(first, number);
    let worker = TreeWorker::new(alloc, project, number);
    (worker, pass)
}

/// Puts a child on the stack, if it is placed.
fn push_child(stack: &mut Vec<Node>, next: Child<Node>) -> Result<(), NoMemory>
    ensures { OnOk result ((P : ProjectValue) → All (StandsFor P) stack.old.items → StandsWherePlaced P next → All (StandsFor P) stack.new.items) }
{
    match next {
        Child::Placed(node) => {
            stack.push(node)?;
            Ok(())
        }
        Child::Shut { .. } => Ok(()),
    }
}

/// Puts the placed children on the stack, the first one last.
fn push_placed(stack: &mut Vec<Node>, children: Children) -> Result<(), NoMemory>
    ensures { OnOk result ((P : ProjectValue) → All (StandsFor P) stack.old.items → All (StandsWherePlaced P) children → All (StandsFor P) stack.new.items) }
{
    let mut left = children.into_vec();
    while let Some(next) = left.pop() {
        push_child(stack, next)?;
    }
    Ok(())
}

/// Visits a node, and puts its children on the stack if it is expanded. Why it is closed, if it is.
pub fn visit_one<C: Cells<CutRecord>>(
    rt: &impl Abort,
    alloc: Global,
    project: &Project,
    worker: &mut TreeWorker,
    table: &RoundTable,
    pass: &mut Pass,
    earlier: &Index,
    rows: &Rows<CutRecord>,
    cells: &mut C,
    stack: &mut Vec<Node>,
    node: Node,
) -> Result<Option<Close>, NoMemory>
    requires table { pass.old.table ≡ table.now }
    requires work { IsAtWork project.now rows.now (record { worker = worker.old; pass = pass.old.view }) }
    requires unrefused { pass.old.view.refused ≡ 0 }
    requires earlier { All (IsBaseOf project.now) earlier.now }
    requires stack { All (StandsFor project.now) stack.old.items }
    requires node { StandsFor project.now node }
    ensures table { pass.new.table ≡ pass.old.table }
    ensures work { OnOk result (IsAtWork project.now rows.now (record { worker = worker.new; pass = pass.new.view })) }
    ensures unrefused { OnOk result (pass.new.view.refused ≡ 0) }
    ensures stack { OnOk result (All (StandsFor project.now) stack.new.items) }
{
    match worker.visit(alloc, project, table, pass, earlier, rows, cells, node)? {
        Visited::Closed(_, close) => Ok(Some(close)),
        Visited::Expanded(_, children, _) => {
            push_placed(stack, children)?;
            Ok(None)
        }
        Visited::Back(_) => panic!(rt; "no ticket is left"),
    }
}
