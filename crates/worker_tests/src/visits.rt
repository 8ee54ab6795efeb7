//! The visits of one worker alone, from the root on.

ghost use Rattle.std.specs.Prelude.{◌≡◌, ◌≤◌};
ghost use Rattle.search_table.specs.Lists.{Lacks};
ghost use Rattle.tree_worker.specs.Worker.{IsAtWork};

use crate::refusing::Refusing;
use crate::workers::{begin, visit_one};
use cutset_store::{CutRecord, Index};
use precedence_tree::Node;
use project_net::{Project, Schedule};
use sched_base::NoMemory;
use search_table::{Pass, RoundTable};
use shared_rows::{Cells, OnceCells, Rows};
use std::alloc::Global;
use std::process::Abort;
use std::test::Fail;
use tree_worker::{Cite, Close, TreeWorker, WorkerParts};
use worked_projects::{NO_LENGTH, TWINS, TWO_IN_TURN, WorkedProject, build};

/// How many nodes a round of the tests may expand.
const QUOTA: u32 = 16;

/// The number of an end that isn't known.
const NONE_YET: u64 = 4_294_967_295;

/// A visit: the last job of its node, the mode and the start, all 0 at the root, and why it is closed, if it is.
type VisitRow = (u8, u8, u32, Option<Close>);

/// The visits of one worker, from the root on, each child after its parent and before what waits longer.
struct Run {
    name: &'static str,
    project: &'static WorkedProject,
    /// The best at the start, in periods.
    best: u64,
    visits: &'static [VisitRow],
    /// The starts of the jobs in the plan that the worker ends with.
    plan: Option<&'static [u32]>,
}

const TAIL: Option<Close> = Some(Close::TailBound);

const LEAF: Option<Close> = Some(Close::Leaf);

static RUNS: [Run; 4] = [
    Run {
        name: "two in turn",
        project: &TWO_IN_TURN,
        best: 5,
        visits: &[
            (0, 0, 0, None),
            (1, 1, 0, None),
            (2, 1, 0, None),
            (3, 1, 3, TAIL),
            (3, 1, 0, None),
            (2, 1, 2, TAIL),
        ],
        plan: None,
    },
    Run {
        name: "two in turn without a plan",
        project: &TWO_IN_TURN,
        best: NONE_YET,
        visits: &[
            (0, 0, 0, None),
            (1, 1, 0, None),
            (2, 1, 0, None),
            (3, 1, 3, None),
            (4, 1, 5, LEAF),
            (3, 1, 0, None),
            (2, 1, 2, TAIL),
        ],
        plan: Some(&[0, 0, 3, 5]),
    },
    Run {
        name: "jobs without length",
        project: &NO_LENGTH,
        best: 5,
        visits: &[
            (0, 0, 0, None),
            (3, 1, 0, None),
            (2, 1, 0, None),
            (1, 1, 0, None),
            (4, 1, 0, None),
            (5, 1, 3, LEAF),
            (5, 1, 0, None),
            (4, 1, 2, LEAF),
            (5, 1, 0, None),
            (1, 1, 0, Some(Close::Cutset(Cite::Own(5)))),
            (5, 1, 0, None),
            (2, 1, 0, Some(Close::Cutset(Cite::Own(6)))),
            (5, 1, 0, None),
            (3, 1, 0, Some(Close::Cutset(Cite::Own(7)))),
        ],
        plan: None,
    },
    Run {
        name: "twins",
        project: &TWINS,
        best: 6,
        visits: &[
            (0, 0, 0, None),
            (1, 1, 0, None),
            (2, 1, 0, None),
            (3, 1, 0, None),
            (4, 1, 1, None),
            (5, 1, 4, TAIL),
            (5, 1, 1, None),
            (4, 1, 3, TAIL),
            (3, 1, 0, None),
            (2, 1, 0, Some(Close::Cutset(Cite::Own(3)))),
        ],
        plan: None,
    },
];

/// The entry that was placed last, and zeros at the root.
fn last_entry(node: &Node) -> (u8, u8, u32) {
    let depth = node.depth();
    if depth == 0 {
        return (0, 0, 0);
    }
    let entry = node.entry(depth);
    (entry.job, entry.mode, entry.start)
}

/// Visits nodes from the root on, and compares each visit.
fn visit_all<C: Cells<CutRecord>>(
    rt: &impl Abort,
    alloc: Global,
    project: &Project,
    worker: &mut TreeWorker,
    table: &RoundTable,
    pass: &mut Pass,
    rows: &Rows<CutRecord>,
    cells: &mut C,
    run: &Run,
) -> Result<(), NoMemory>
    requires table { pass.old.table ≡ table.now }
    requires work { IsAtWork project.now rows.now (record { worker = worker.old; pass = pass.old.view }) }
    requires unrefused { pass.old.view.refused ≡ 0 }
{
    let earlier = Index::new(alloc, project);
    let mut stack = vec![in alloc; Node::root()]?;
    for visit in run.visits {
        let Some(node) = stack.pop() else {
            panic!(rt; "no node is left in {}", run.name);
        };
        let (job, mode, start) = last_entry(&node);
        let close = visit_one(
            rt, alloc, project, worker, table, pass, &earlier, rows, cells, &mut stack, node,
        )?;
        assert_eq!(rt; (job, mode, start, close), *visit, "{}", run.name);
    }
    assert!(rt; stack.is_empty(), "{}", run.name);
    Ok(())
}

/// What the worker of a round that has no other ends with.
fn run_in<C: Cells<CutRecord>>(
    rt: &impl Abort,
    alloc: Global,
    project: &Project,
    table: &RoundTable,
    first: &mut Pass,
    rows: &Rows<CutRecord>,
    cells: &mut C,
    run: &Run,
) -> Result<WorkerParts, NoMemory>
    requires table { first.old.table ≡ table.now }
    requires first { first.old.view.number ≡ 0 }
    requires some { 1 ≤ first.old.view.terms.workers }
    requires once { Lacks first.old.view.split_off 1 }
    requires workers { first.old.view.terms.workers ≡ rows.now.workers }
    requires room { first.old.view.terms.quota ≤ rows.now.cells }
{
    let (mut worker, mut pass) = begin(alloc, project, table, first, rows, 1);
    visit_all(
        rt,
        alloc,
        project,
        &mut worker,
        table,
        &mut pass,
        rows,
        cells,
        run,
    )?;
    Ok(worker.into_parts())
}

fn run_on<C: Cells<CutRecord>>(
    rt: &impl Abort,
    alloc: Global,
    project: &Project,
    cells: &mut C,
    run: &Run,
) -> Result<WorkerParts, NoMemory> {
    let (table, mut first) = RoundTable::new(alloc, run.best, u64::from(QUOTA), 1)?;
    let rows = Rows::new(alloc, 1, QUOTA)?;
    run_in(rt, alloc, project, &table, &mut first, &rows, cells, run)
}

/// A round of one worker, from the root on.
fn run_alone<C: Cells<CutRecord>>(
    rt: &impl Abort,
    alloc: Global,
    cells: &mut C,
    run: &Run,
) -> Result<WorkerParts, Fail> {
    let project = build(alloc, run.project)?;
    Ok(run_on(rt, alloc, &project, cells, run)?)
}

/// Whether the jobs of the plan have these starts.
fn has_starts(plan: &Schedule, starts: &[u32]) -> bool {
    if plan.len() != starts.len() || starts.len() > 128 {
        return false;
    }
    for place in 0..starts.len() {
        if plan.place(place as u8 + 1).start != starts[place] {
            return false;
        }
    }
    true
}

/// How many visits of the run expand their node.
fn expanded(run: &Run) -> usize {
    run.visits.iter().filter(|visit| visit.3.is_none()).count()
}

/// Compares the records and the plan of a worker with those of the run.
fn compare(rt: &impl Abort, run: &Run, parts: &WorkerParts) {
    assert_eq!(rt; parts.own.len(), expanded(run), "{}", run.name);
    assert_eq!(rt; parts.live.len(), 0, "{}", run.name);
    match (&parts.plan, run.plan) {
        (Some(plan), Some(starts)) => assert!(rt; has_starts(plan, starts), "{}", run.name),
        (None, None) => (),
        _ => panic!(rt; "{}", run.name),
    }
}

fn visit_alone(rt: &impl Abort, alloc: Global, run: &Run) -> Result<(), Fail> {
    let parts = run_alone(rt, alloc, &mut OnceCells::new(), run)?;
    compare(rt, run, &parts);
    Ok(())
}

#[test]
fn visits_of_one_worker(rt: HostRuntime) -> Result<(), Fail> {
    for run in &RUNS {
        visit_alone(&rt, rt.alloc(), run)?;
    }
    Ok(())
}

/// A worker whose first record is refused publishes none, and visits as it would have.
fn visit_unpublished(rt: &impl Abort, alloc: Global, run: &Run) -> Result<(), Fail> {
    let mut cells = Refusing {
        refused: 0,
        empty: 0,
    };
    let parts = run_alone(rt, alloc, &mut cells, run)?;
    assert_eq!(rt; parts.own.len(), 0, "{}", run.name);
    assert_eq!(rt; cells.refused, 1, "{}", run.name);
    Ok(())
}

#[test]
fn a_stopped_worker_goes_on(rt: HostRuntime) -> Result<(), Fail> {
    for run in &RUNS {
        visit_unpublished(&rt, rt.alloc(), run)?;
    }
    Ok(())
}
