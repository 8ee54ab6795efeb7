// A search whose rounds a crew of workers runs.
ghost use Rattle.std.specs.Prelude.{◌≡◌, ◌<◌, ◌≤◌, [], length, IfOk, IfSome};
ghost use Rattle.rcpsp_model.specs.Schedule.{end_of, entries, IsFeasible};
ghost use Rattle.rcpsp_model.specs.Tree.{LeavesBudgets};
ghost use Rattle.rcpsp_model.specs.Claim.{HasDuration};
ghost use Rattle.search_rounds.specs.Going.{Goes, work};
ghost use Rattle.search_rounds.specs.Found.{IsEnded, IsEndedFromFirst, end_of_plan};

use crate::crew::round;
use plan_bounds::budget_gap;
use precedence_tree::Node;
use project_net::{Project, Schedule};
use sched_base::{Gate, NoMemory};
use search_rounds::{Best, Ended, Search, found_gap};
use serial_scheme::first_plan;
use std::alloc::Global;
use std::thread::Threads;

// One round.
fn advance<R: Threads + Sync, G: Gate + Sync>(
    runtime: &R,
    alloc: Global,
    project: &Project,
    workers: u32,
    nodes: u32,
    gate: &G,
    mut going: Search,
) -> Result<Search, NoMemory>
    requires some_workers { 1 ≤ workers }
    requires few_workers { workers ≤ 32 }
    requires few { nodes ≤ 100000 }
    requires some { 0 < length going.frontier }
    requires more { going.used < nodes }
    requires goes { Goes project.now workers nodes going }
    ensures goes { IfOk result (Goes project.now workers nodes) }
    ensures first { IfOk result (λ s. s.first ≡ going.first) }
    ensures nearer { IfOk result (λ s. work nodes s < work nodes going) }
{
    let terms = going.next_terms(project, nodes);
    let frontier = going.take_frontier(alloc);
    let ended = round(
        runtime,
        alloc,
        project,
        &going.table,
        &going.records,
        frontier,
        workers,
        terms,
        gate,
    )?;
    let next = going.take_round(alloc, project, terms, ended)?;
    Ok(next)
}

// Runs rounds while nodes wait and expansions are left.
fn run<R: Threads + Sync, G: Gate + Sync>(
    runtime: &R,
    alloc: Global,
    project: &Project,
    workers: u32,
    nodes: u32,
    gate: &G,
    best: Best,
) -> Result<Ended, NoMemory>
    requires some_workers { 1 ≤ workers }
    requires few_workers { workers ≤ 32 }
    requires few { nodes ≤ 100000 }
    requires budgets { LeavesBudgets project.now [] }
    requires best { HasDuration project.now best.end best.plan }
    requires soon { IfSome best.end (λ end. end ≤ 1290000) }
    ensures { IfOk result (IsEnded project.now workers nodes best.end) }
{
    let mut going = Search::begin(alloc, project, best)?;
    'rounds: while going.has_more(nodes) {
        going = advance(runtime, alloc, project, workers, nodes, gate, going)?;
    }
    going.finish(alloc, project, nodes)
}

/// A search from a plan, or from none, on 1 to 32 workers, that expands at most so many nodes.
///
/// What it found is told of the end that it gives, with the log or without. The workers of a round work side by side, each in
/// a thread of its own where threads can be had, and pass the gate when they begin and after each node that they expanded.
///
/// # Errors
///
/// [`NoMemory`] where memory was refused to the search or to one of its workers.
pub fn search_from<R: Threads + Sync, G: Gate + Sync>(
    runtime: &R,
    alloc: Global,
    project: &Project,
    workers: u32,
    nodes: u32,
    plan: Option<Schedule>,
    gate: &G,
) -> Result<Ended, NoMemory>
    requires some_workers { 1 ≤ workers }
    requires few_workers { workers ≤ 32 }
    requires few { nodes ≤ 100000 }
    requires feasible { IfSome plan (IsFeasible project.now) }
    requires soon { IfSome plan (λ s. end_of project.now (entries s) ≤ 1290000) }
    ensures { IfOk result (IsEnded project.now workers nodes (end_of_plan project.now plan)) }
{
    let best = Best::of_plan(project, plan);
    let root = Node::root();
    match budget_gap(project, &root) {
        Some(resource) => found_gap(alloc, project, resource, best),
        None => run(runtime, alloc, project, workers, nodes, gate, best),
    }
}

/// A search from the first plan, on 1 to 32 workers, that expands at most so many nodes; as [`search_from`].
///
/// # Errors
///
/// [`NoMemory`] where memory was refused to the search or to one of its workers.
pub fn search<R: Threads + Sync, G: Gate + Sync>(
    runtime: &R,
    alloc: Global,
    project: &Project,
    workers: u32,
    nodes: u32,
    gate: &G,
) -> Result<Ended, NoMemory>
    requires some_workers { 1 ≤ workers }
    requires few_workers { workers ≤ 32 }
    requires few { nodes ≤ 100000 }
    ensures { IfOk result (IsEndedFromFirst project.now workers nodes) }
{
    let plan = first_plan(alloc, project)?;
    let ended = search_from(runtime, alloc, project, workers, nodes, plan, gate)?;
    Ok(ended)
}
