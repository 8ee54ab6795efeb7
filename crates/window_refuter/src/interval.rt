//! Intervals of periods in which the jobs that have to run within them take more than there is.

ghost use Rattle.std.specs.Prelude.{◌≡◌, ℕ, ◌-◌, ◌<◌, ◌≤◌, length, map, IfOk, IfSome, IfNone};
ghost use Rattle.rcpsp_model.specs.Project.{IsRenewable, job_count};
ghost use Rattle.rcpsp_model.specs.Bounds.{supply};
ghost use Rattle.window_refuter.specs.Windows.{AreWithin, NoneIsEmpty, work_within};
ghost use Rattle.window_refuter.specs.Steps.{IsOverfull};
ghost use Rattle.window_refuter.specs.Dues.{IsFinish, AreByFinish, HoldsWithin, IsFullStep, NoneIsFull};

use crate::emptiness::window;
use crate::step::BoundStep;
use crate::supply::supply_before;
use crate::window::Window;
use mode_rules::least_work;
use project_net::Project;
use sched_base::NoMemory;
use std::alloc::Global;

/// A job, and the period by which it has to be over.
#[derive(Clone, Copy, Debug, PartialEq, Eq)]
pub(crate) struct Due {
    pub(crate) job: u8,
    pub(crate) latest_finish: u32,
}

/// All jobs, by rising latest finish.
fn by_finish(alloc: Global, project: &Project, windows: &[Window]) -> Result<Vec<Due>, NoMemory>
    requires { length windows.now ≡ job_count project.now }
    ensures { IfOk result (λ v. AreByFinish project.now windows.now v.items) }
{
    let mut dues = Vec::new(alloc);
    for done in 0..project.jobs() {
        let job = done + 1;
        let latest_finish = window(windows, job).latest_finish;
        dues.push(Due { job, latest_finish })?;
    }
    dues.sort_unstable_by_key(|due| due.latest_finish);
    Ok(dues)
}

/// What there is of the resource in the periods before each of the latest finishes.
fn supplies(
    alloc: Global,
    project: &Project,
    windows: &[Window],
    dues: &[Due],
    resource: u8,
) -> Result<Vec<u64>, NoMemory>
    requires within { AreWithin 1290000 windows.now }
    requires dues { AreByFinish project.now windows.now dues.now }
    requires resource { IsRenewable project.now resource }
    ensures { IfOk result (λ v. v.items ≡ map (λ d. supply project.now resource 0 d.latest_finish) dues.now) }
{
    let mut supplies = Vec::new(alloc);
    for due in dues {
        let supply = supply_before(project, resource, due.latest_finish);
        supplies.push(supply)?;
    }
    Ok(supplies)
}

/// The first latest finish of a job up to which the periods that begin with the one don't hold their jobs' work.
fn overfull_from(
    project: &Project,
    windows: &[Window],
    dues: &[Due],
    supplies: &[u64],
    resource: u8,
    from: u32,
) -> Option<u32>
    requires size { length windows.now ≡ job_count project.now }
    requires none_empty { NoneIsEmpty project.now windows.now }
    requires soon { from ≤ 1290000 }
    requires dues { AreByFinish project.now windows.now dues.now }
    requires resource { IsRenewable project.now resource }
    requires supplies { supplies.now ≡ map (λ d. supply project.now resource 0 d.latest_finish) dues.now }
    ensures some { IfSome result (λ until. from ≤ until) }
    ensures finish { IfSome result (IsFinish windows.now) }
    ensures full { IfSome result (λ until. supply project.now resource from (until - from) < work_within project.now windows.now resource from until) }
    ensures none { IfNone result ((until : ℕ) → from ≤ until → HoldsWithin project.now windows.now resource from until) }
{
    project.known();
    let before = supply_before(project, resource, from);
    let mut work = 0;
    for place in 0..dues.len() {
        let due = dues[place];
        if window(windows, due.job).earliest_start < from {
            continue;
        }
        work += least_work(project, due.job, resource);
        if supplies[place] < before + work {
            return Some(due.latest_finish);
        }
    }
    None
}

/// Periods from the earliest start of a job up to the latest finish of one that don't hold their jobs' work.
fn overfull_of(
    project: &Project,
    windows: &[Window],
    dues: &[Due],
    supplies: &[u64],
    resource: u8,
) -> Option<(u32, u32)>
    requires size { length windows.now ≡ job_count project.now }
    requires within { AreWithin 1290000 windows.now }
    requires none_empty { NoneIsEmpty project.now windows.now }
    requires dues { AreByFinish project.now windows.now dues.now }
    requires resource { IsRenewable project.now resource }
    requires supplies { supplies.now ≡ map (λ d. supply project.now resource 0 d.latest_finish) dues.now }
    ensures some { IfSome result (λ p. p.0 ≤ p.1) }
    ensures finish { IfSome result (λ p. IsFinish windows.now p.1) }
    ensures full { IfSome result (λ p. supply project.now resource p.0 (p.1 - p.0) < work_within project.now windows.now resource p.0 p.1) }
    ensures none { IfNone result ((a b : ℕ) → a ≤ b → HoldsWithin project.now windows.now resource a b) }
{
    for done in 0..project.jobs() {
        let from = window(windows, done + 1).earliest_start;
        if let Some(until) = overfull_from(project, windows, dues, supplies, resource, from) {
            return Some((from, until));
        }
    }
    None
}

/// A step that names a resource and periods that don't hold their jobs' work, if there are any.
pub(crate) fn overfull(
    alloc: Global,
    project: &Project,
    end: u32,
    windows: &[Window],
) -> Result<Option<BoundStep>, NoMemory>
    requires soon { end ≤ 1290000 }
    requires size { length windows.now ≡ job_count project.now }
    requires within { AreWithin end windows.now }
    requires none_empty { NoneIsEmpty project.now windows.now }
    ensures some { IfOk result (λ o. IfSome o (IsFullStep project.now end windows.now)) }
    ensures none { IfOk result (λ o. IfNone o (NoneIsFull project.now windows.now)) }
{
    let dues = by_finish(alloc, project, windows)?;
    for done in 0..project.renewables() {
        let resource = done + 1;
        let supplies = supplies(alloc, project, windows, dues.as_slice(), resource)?;
        let found = overfull_of(
            project,
            windows,
            dues.as_slice(),
            supplies.as_slice(),
            resource,
        );
        if let Some((from, until)) = found {
            return Ok(Some(BoundStep::Work(resource, from, until)));
        }
    }
    Ok(None)
}
