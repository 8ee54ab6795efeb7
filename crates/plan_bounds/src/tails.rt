ghost use Rattle.std.specs.Prelude.{◌≤◌, [], All};
ghost use Rattle.rcpsp_model.specs.Chain.{IsGreatest};
ghost use Rattle.rcpsp_model.specs.Bounds.{IsTailBound};
ghost use Rattle.precedence_tree.specs.Active.{IsNamed};
ghost use Rattle.precedence_tree.specs.Node.{StandsFor, joined};
ghost use Rattle.plan_bounds.specs.Tails.{IsAfter, IsFloorOrAfter};

use precedence_tree::{Active, Node};
use project_net::Project;

/// When the longest chain after an active job can be done at the earliest.
fn end_after(project: &Project, active: Active) -> u32
    requires named { IsNamed project.now active }
    requires finish { active.finish ≤ 1290000 }
    ensures value { IsAfter project.now active result }
    ensures limit { result ≤ 2570000 }
{
    project.known();
    let job = active.entry.job;
    active.finish + (project.tail(job) - project.least_duration(job))
}

/// The greatest of a floor and of when the chains after the active jobs can be done.
fn latest_after(project: &Project, active: &[Active], floor: u32) -> u32
    requires named { All (IsNamed project.now) active.now }
    requires finishes { All (λ a. a.finish ≤ 1290000) active.now }
    requires floor { floor ≤ 2570000 }
    ensures value { IsGreatest (IsFloorOrAfter project.now active.now floor) result }
    ensures limit { result ≤ 2570000 }
{
    project.known();
    let mut bound = floor;
    for place in 0..active.len() {
        let own = end_after(project, active[place]);
        bound = bound.max(own);
    }
    bound
}

/// The same of one active job that there may be.
fn latest_after_newest(project: &Project, newest: Option<Active>, floor: u32) -> u32
    requires named { All (IsNamed project.now) (joined newest []) }
    requires finishes { All (λ a. a.finish ≤ 1290000) (joined newest []) }
    requires floor { floor ≤ 2570000 }
    ensures value { IsGreatest (IsFloorOrAfter project.now (joined newest []) floor) result }
    ensures limit { result ≤ 2570000 }
{
    match newest {
        Some(active) => latest_after(project, &[active], floor),
        None => latest_after(project, &[], floor),
    }
}

/// The tail bound of a node.
///
/// A chain of unplaced jobs begins with a job that waits for an active one or for none, and then is no longer than one
/// from an eligible job on. A job that the newest one made eligible is ahead of no more than the newest one itself: so the
/// active jobs are asked, and those that were eligible before.
pub fn tail_bound_of(project: &Project, node: &Node) -> u32
    requires { StandsFor project.now node.now }
    ensures value { IsTailBound project.now node.now.front result }
    ensures limit { result ≤ 2570000 }
{
    project.known();
    let older = node.older_active(project);
    let newest = node.newest_active();
    let ahead = node.last() + node.longest_tail_before(project);
    let first = node.end().max(ahead);
    let bound = latest_after_newest(project, newest, first);
    latest_after(project, older, bound)
}
