//! What workers share, and what goes from one thread to another.

use cutset_store::{CutRecord, Index};
use precedence_tree::Node;
use project_net::Project;
use sched_base::NoMemory;
use shared_rows::Rows;
use std::alloc::Global;
use std::test::Fail;
use tree_worker::{TreeWorker, Visited};
use worked_projects::{TWINS, build};

/// That threads may share the value.
fn is_shared<T: Sync>(_value: &T) {}

/// That the value may go to another thread.
fn is_sent<T: Send>(_value: &T) {}

fn send_worker(alloc: Global, project: &Project) {
    let worker = TreeWorker::new(alloc, project, 1);
    is_sent(&worker);
    is_sent(&worker.into_parts());
}

fn share_records(alloc: Global, project: &Project) -> Result<(), NoMemory> {
    let rows: Rows<CutRecord> = Rows::new(alloc, 1, 16)?;
    is_shared(&rows);
    is_shared(&Index::new(alloc, project));
    Ok(())
}

fn cross_threads(alloc: Global, project: &Project) -> Result<(), NoMemory> {
    send_worker(alloc, project);
    is_sent(&Visited::Back(Node::root()));
    share_records(alloc, project)
}

#[test]
fn workers_cross_threads(rt: HostRuntime) -> Result<(), Fail> {
    let project = build(rt.alloc(), &TWINS)?;
    Ok(cross_threads(rt.alloc(), &project)?)
}
