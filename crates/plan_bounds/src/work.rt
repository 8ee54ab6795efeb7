ghost use Rattle.std.specs.Prelude.{◌≡◌, ◌+◌, ◌*◌, ◌≤◌, ◌↔◌, [], length, sum_by, All, IsNone, IfSome};
ghost use Rattle.rcpsp_model.specs.Project.{IsRenewable, capacity};
ghost use Rattle.rcpsp_model.specs.Bounds.{rest_work, IsWorkBound};
ghost use Rattle.precedence_tree.specs.Active.{IsNamed};
ghost use Rattle.precedence_tree.specs.Node.{StandsFor, joined};
ghost use Rattle.plan_bounds.specs.Work.{work_from};

use crate::supply::end_of_work;
use precedence_tree::{Active, Node};
use project_net::Project;

/// What an active job still asks of the resource from the period on.
fn work_of(project: &Project, active: Active, from: u32, resource: u8) -> u64
    requires named { IsNamed project.now active }
    requires low { from ≤ active.finish }
    requires high { active.finish ≤ from + 10000 }
    requires resource { IsRenewable project.now resource }
    ensures value { result ≡ work_from project.now resource from active }
    ensures limit { result ≤ 10000000000 }
{
    let entry = active.entry;
    u64::from(project.request(entry.job, entry.mode, resource)) * u64::from(active.finish - from)
}

/// What the active jobs still ask of the resource from the period on; at most 128 times 1,000,000 units in 10,000 periods.
fn active_work(project: &Project, active: &[Active], from: u32, resource: u8) -> u64
    requires named { All (IsNamed project.now) active.now }
    requires finishes { All (λ a. (from ≤ a.finish) × (a.finish ≤ from + 10000)) active.now }
    requires few { length active.now ≤ 128 }
    requires resource { IsRenewable project.now resource }
    ensures value { result ≡ sum_by (work_from project.now resource from) active.now }
    ensures limit { result ≤ 1280000000000 }
{
    let mut sum = 0;
    for place in 0..active.len() {
        sum += work_of(project, active[place], from, resource);
    }
    sum
}

/// The same of one active job that there may be.
fn newest_work(project: &Project, newest: Option<Active>, from: u32, resource: u8) -> u64
    requires named { All (IsNamed project.now) (joined newest []) }
    requires finishes { All (λ a. (from ≤ a.finish) × (a.finish ≤ from + 10000)) (joined newest []) }
    requires resource { IsRenewable project.now resource }
    ensures value { result ≡ sum_by (work_from project.now resource from) (joined newest []) }
    ensures limit { result ≤ 1280000000000 }
{
    match newest {
        Some(active) => active_work(project, &[active], from, resource),
        None => active_work(project, &[], from, resource),
    }
}

/// The work on the resource that is left from the node's last start on: what its active jobs still ask for, and the least
/// work of the jobs that aren't placed.
fn work_left(project: &Project, node: &Node, resource: u8) -> u64
    requires node { StandsFor project.now node.now }
    requires resource { IsRenewable project.now resource }
    ensures value { result ≡ rest_work project.now node.now.front resource }
    ensures limit { result ≤ 3840000000000 }
{
    project.known();
    let last = node.last();
    let older = node.older_active(project);
    let newest = node.newest_active();
    let own = newest_work(project, newest, last, resource);
    let others = active_work(project, older, last, resource);
    own + others + node.rest_work(project, resource)
}

/// The work bound of the resource at a node.
pub fn work_bound_of(project: &Project, node: &Node, resource: u8) -> Option<u32>
    requires node { StandsFor project.now node.now }
    requires resource { IsRenewable project.now resource }
    ensures some { IfSome result (IsWorkBound project.now node.now.front resource) }
    ensures none { IsNone result ↔ (capacity project.now resource ≡ 0) }
    ensures limit { IfSome result (λ w. w ≤ 999999999) }
{
    project.known();
    if project.capacity(resource) == 0 {
        return None;
    }
    let work = work_left(project, node, resource);
    Some(end_of_work(project, resource, node.last(), work))
}
