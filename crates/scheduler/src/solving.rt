//! A search, and the report that is told of it.

ghost use Rattle.std.specs.Prelude.{◌≡◌, ◌≤◌, IfOk};
ghost use Rattle.proof_log.specs.Report.{IsReport};
ghost use Rattle.search_rounds.specs.Found.{report_of};
ghost use Rattle.scheduler.specs.Solve.{IsEndedFromStart, IsSearched, IsSearchedTo};

use crate::planning::start_of;
use log_truth::true_claim;
use plan_words::Request;
use project_net::Project;
use proof_log::{Report, Verdict};
use sched_base::{Gate, NoMemory};
use search_rounds::{Ended, Found, told_report};
use std::alloc::Global;
use std::thread::Threads;
use steal_rounds::search_from;

/// The end of the search of the workers.
fn ended_by<R: Threads + Sync, G: Gate + Sync>(
    rt: &R,
    alloc: Global,
    gate: &G,
    project: &Project,
    request: Request,
) -> Result<Ended, NoMemory>
    requires some { 1 ≤ request.workers }
    requires few { request.workers ≤ 32 }
    requires nodes { request.nodes ≤ 100000 }
    ensures { IfOk result (IsEndedFromStart project.now request.workers request.nodes request.tries) }
{
    let plan = start_of(alloc, project, request.tries)?;
    let ended = search_from(
        rt,
        alloc,
        project,
        request.workers,
        request.nodes,
        plan,
        gate,
    )?;
    Ok(ended)
}

/// The report of what was found, with its log.
fn told(found: Found) -> Report
    ensures { result ≡ report_of found }
{
    let Found {
        verdict,
        best,
        log,
        origins: _,
        starts: _,
    } = found;
    let log = Some(log);
    Report { verdict, best, log }
}

/// The report on a project.
pub fn report_on<R: Threads + Sync, G: Gate + Sync>(
    rt: &R,
    alloc: Global,
    gate: &G,
    project: &Project,
    request: Request,
) -> Result<Report, NoMemory>
    requires some { 1 ≤ request.workers }
    requires few { request.workers ≤ 32 }
    requires nodes { request.nodes ≤ 100000 }
    ensures report { IfOk result (IsSearched project.now request.workers request.nodes request.tries request.log) }
    ensures text { IfOk result IsReport }
{
    project.known();
    told_report();
    true_claim();
    let ended = ended_by(rt, alloc, gate, project, request)?;
    if request.log {
        let found = ended.tell(alloc)?;
        return Ok(told(found));
    }
    Ok(ended.without_log())
}

/// The verdict of the report on a project, by a search that begins with the first plan.
pub fn verdict_on<R: Threads + Sync, G: Gate + Sync>(
    rt: &R,
    alloc: Global,
    gate: &G,
    project: &Project,
    workers: u32,
    nodes: u32,
) -> Result<Verdict, NoMemory>
    requires some { 1 ≤ workers }
    requires few { workers ≤ 32 }
    requires nodes { nodes ≤ 100000 }
    ensures { IfOk result (IsSearchedTo project.now workers nodes) }
{
    let request = Request {
        workers,
        nodes,
        tries: 0,
        log: false,
    };
    let report = report_on(rt, alloc, gate, project, request)?;
    Ok(report.verdict)
}
