//! The least and the greatest needs of the jobs, and the budgets between them.

ghost use Rattle.std.specs.Prelude.{◌≡◌, ◌≤◌, if◌then◌else◌, [], ◌∷◌, length, map, All, IfOk};
ghost use Rattle.rcpsp_model.specs.Project.{IsModeWithinLimits};
ghost use Rattle.rcpsp_model.specs.Chain.{least_over};
ghost use Rattle.project_net.specs.Canonical.{greatest};
ghost use Rattle.project_net.specs.Draft.{IsJobWithinLimits};
ghost use Rattle.project_gen.specs.Made.{has_budgets, need_of};
ghost use Rattle.project_gen.specs.Drafting.{budget_in};

use crate::drawing::has_budgets;
use project_net::{DraftJob, Mode};
use sched_base::{List, NoMemory};
use std::alloc::Global;

/// The least need of a nonrenewable resource over modes.
fn least_need(modes: &[Mode], resource: usize) -> u32
    requires some { 1 ≤ length modes.now }
    requires limits { All (IsModeWithinLimits 2 2) modes.now }
    requires low { 1 ≤ resource }
    requires high { resource ≤ 2 }
    ensures value { result ≡ least_over (need_of resource) modes.now }
    ensures limit { result ≤ 1000000 }
{
    let mut least = modes[0].needs.as_slice()[resource - 1];
    for place in 1..modes.len() {
        let need = modes[place].needs.as_slice()[resource - 1];
        if need < least {
            least = need;
        }
    }
    least
}

/// The greatest need of a nonrenewable resource over modes.
fn greatest_need(modes: &[Mode], resource: usize) -> u32
    requires limits { All (IsModeWithinLimits 2 2) modes.now }
    requires low { 1 ≤ resource }
    requires high { resource ≤ 2 }
    ensures value { result ≡ greatest (map (need_of resource) modes.now) }
    ensures limit { result ≤ 1000000 }
{
    let mut greatest = 0;
    for mode in modes {
        let need = mode.needs.as_slice()[resource - 1];
        if greatest < need {
            greatest = need;
        }
    }
    greatest
}

/// The half, rounded up, of the sum of the least and the greatest needs of all jobs.
fn budget(jobs: &[DraftJob], resource: usize) -> u32
    requires few { length jobs.now ≤ 128 }
    requires limits { All (IsJobWithinLimits 2 2) jobs.now }
    requires low { 1 ≤ resource }
    requires high { resource ≤ 2 }
    ensures { result ≡ budget_in jobs.now resource }
{
    let mut sum = 0;
    for job in jobs {
        let modes = job.modes.as_slice();
        sum += least_need(modes, resource) + greatest_need(modes, resource);
    }
    (sum + 1) / 2
}

/// The budgets of two nonrenewable resources where there are any, else none.
pub fn budgets(alloc: Global, jobs: &[DraftJob], modes: u8) -> Result<List<u32>, NoMemory>
    requires few { length jobs.now ≤ 128 }
    requires limits { All (IsJobWithinLimits 2 (if has_budgets modes then 2 else 0)) jobs.now }
    ensures { IfOk result (λ budgets. budgets ≡ (if has_budgets modes then budget_in jobs.now 1 ∷ budget_in jobs.now 2 ∷ [] else [])) }
{
    if !has_budgets(modes) {
        return Ok(List::new(alloc));
    }
    let budgets = vec![in alloc; budget(jobs, 1), budget(jobs, 2)]?;
    Ok(List::from_vec(budgets))
}
