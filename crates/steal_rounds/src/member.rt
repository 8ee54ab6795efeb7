// The workers of a round, each with its pass and its part.
ghost use Rattle.std.specs.Prelude.{◌≡◌, ◌+◌, ◌≤◌, ◌<◌, [], length, vec_len, All, IfOk};
ghost use Rattle.std.specs.List.{AllZip};
ghost use Rattle.std.specs.Thread.{IsSync};
ghost use Rattle.precedence_tree.specs.Base.{IsBaseOf};
ghost use Rattle.tree_worker.specs.Worker.{new_worker};
ghost use Rattle.steal_rounds.specs.Lists.{part_state, new_part};
ghost use Rattle.steal_rounds.specs.Members.{IsReady, Went, AreSeated, with_workers};

use crate::part::Part;
use crate::work::work;
use cutset_store::CutRecord;
use node_sources::NodeSource;
use project_net::Project;
use sched_base::{Gate, NoMemory};
use search_rounds::Records;
use search_table::{Pass, RoundTable};
use shared_rows::Rows;
use std::alloc::Global;
use std::collections::VecDeque;
use std::thread::{Threads, join_mut};
use tree_worker::TreeWorker;

/// A worker of a round.
#[derive(Drop)]
pub(crate) struct Member {
    pub worker: TreeWorker,
    pub pass: Pass,
    pub part: Part,
    /// Whether memory was refused to it; it visits no more then.
    pub failed: bool,
}

// A worker that has done nothing, with the source of its nodes.
fn new_member(
    alloc: Global,
    project: &Project,
    number: u32,
    pass: Pass,
    source: NodeSource,
) -> Member
    ensures pass { result.pass ≡ pass }
    ensures worker { result.worker ≡ new_worker number }
    ensures part { part_state result.part ≡ new_part source.list }
    ensures source { result.part.source ≡ source }
{
    Member {
        worker: TreeWorker::new(alloc, project, number),
        pass,
        part: Part {
            grown: Vec::new(alloc),
            fills: Vec::new(alloc),
            live: Vec::new(alloc),
            made: Vec::new(alloc),
            source,
        },
        failed: false,
    }
}

/// A worker for each source of nodes, with the numbers from 1 on, each with a pass of its own.
pub(crate) fn seat(
    alloc: Global,
    project: &Project,
    words: &RoundTable,
    first: &mut Pass,
    sources: Vec<NodeSource>,
) -> Result<Vec<Member>, NoMemory>
    requires table { first.old.table ≡ words.now }
    requires number { first.old.view.number ≡ 0 }
    requires none { first.old.view.split_off ≡ [] }
    requires room { vec_len sources ≤ first.old.view.terms.workers }
    requires few { vec_len sources ≤ 32 }
    ensures table { first.new.table ≡ first.old.table }
    ensures first { IfOk result (λ members. first.new.view ≡ with_workers (vec_len sources) first.old.view) }
    ensures members { IfOk result (λ members. AreSeated words.now first.old.view 1 sources.items members.items) }
{
    let mut members = Vec::with_capacity(alloc, sources.len())?;
    let mut sources = VecDeque::from(sources);
    while let Some(source) = sources.pop_front() {
        let number = members.len() as u32 + 1;
        let pass = words.split(first, number);
        members.push(new_member(alloc, project, number, pass, source))?;
    }
    Ok(members)
}

// The part of one worker in the round.
fn run_one<G: Gate>(
    alloc: Global,
    project: &Project,
    records: &Records,
    words: &RoundTable,
    rows: &Rows<CutRecord>,
    round: u32,
    gate: &G,
    member: &mut Member,
)
    requires records { All (IsBaseOf project.now) records.now.index }
    requires places { length records.now.places ≡ length records.now.index }
    requires ready { IsReady project.now words.now rows.now member.old }
    ensures { Went project.now records.now rows.now round member.old member.new }
{
    let done = work(
        alloc,
        project,
        records,
        words,
        rows,
        &mut member.worker,
        &mut member.pass,
        &mut member.part,
        round,
        gate,
    );
    member.failed = done.is_err();
}

// Runs each worker in a thread of its own, if threads can be had.
fn run_all<R: Threads + Sync, G: Gate + Sync>(
    runtime: &R,
    alloc: Global,
    project: &Project,
    records: &Records,
    words: &RoundTable,
    rows: &Rows<CutRecord>,
    round: u32,
    gate: &G,
    members: &mut [Member],
)
    requires records { All (IsBaseOf project.now) records.now.index }
    requires places { length records.now.places ≡ length records.now.index }
    requires ready { All (IsReady project.now words.now rows.now) members.old }
    ensures { AllZip (Went project.now records.now rows.now round) members.old members.new }
{
    if members.len() < 2 {
        if let [member] = members {
            run_one(alloc, project, records, words, rows, round, gate, member);
        }
        return;
    }
    let (front, back) = members.split_at_mut(members.len() / 2);
    join_mut(
        runtime,
        &mut ||
            requires { IsSync R.row × IsSync G.row × All (IsBaseOf project.now) records.now.index × (length records.now.places ≡ length records.now.index) × All (IsReady project.now words.now rows.now) front.now }
            ensures { AllZip (Went project.entry.now records.entry.now rows.entry.now round) front.entry.now front.exit.now }
        {
            run_all(
                runtime, alloc, project, records, words, rows, round, gate, front,
            )
        },
        &mut ||
            requires { IsSync R.row × IsSync G.row × All (IsBaseOf project.now) records.now.index × (length records.now.places ≡ length records.now.index) × All (IsReady project.now words.now rows.now) back.now }
            ensures { AllZip (Went project.entry.now records.entry.now rows.entry.now round) back.entry.now back.exit.now }
        {
            run_all(
                runtime, alloc, project, records, words, rows, round, gate, back,
            )
        },
    );
}

/// Runs each worker in a thread of its own, if threads can be had.
pub(crate) fn run_members<R: Threads + Sync, G: Gate + Sync>(
    runtime: &R,
    alloc: Global,
    project: &Project,
    records: &Records,
    words: &RoundTable,
    rows: &Rows<CutRecord>,
    round: u32,
    gate: &G,
    members: &mut Vec<Member>,
)
    requires records { All (IsBaseOf project.now) records.now.index }
    requires places { length records.now.places ≡ length records.now.index }
    requires ready { All (IsReady project.now words.now rows.now) members.old.items }
    ensures { AllZip (Went project.now records.now rows.now round) members.old.items members.new.items }
{
    run_all(
        runtime,
        alloc,
        project,
        records,
        words,
        rows,
        round,
        gate,
        members.as_mut_slice(),
    )
}
