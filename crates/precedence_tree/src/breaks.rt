//! Starts in the periods in which there is less of a resource than its capacity.

ghost use Rattle.std.specs.Prelude.{◌≡◌, ℕ, ◌+◌, ◌<◌, ◌≤◌, ◌↔◌, All, IfSome, IfNone};
ghost use Rattle.rcpsp_model.specs.Project.{IsJob, IsMode, IsRenewable, duration, request};
ghost use Rattle.precedence_tree.specs.Active.{AreByFinish, IsNamed, load_at};
ghost use Rattle.precedence_tree.specs.Starts.{HasRoomAt, FitsOn, FitsBeside, IsNextTry};
ghost use Rattle.precedence_tree.specs.Base.{IsBaseOf};

use crate::active::{Active, free_from};
use crate::base::Base;
use project_net::{Project, place_at};

/// The first period from which on the active jobs leave what is asked of a stretch, where that is before its end; else its
/// end.
fn free_within(
    project: &Project,
    active: &[Active],
    resource: u8,
    capacity: u32,
    asked: u32,
    until: u32,
) -> u32
    requires order { AreByFinish active.now }
    requires named { All (IsNamed project.now) active.now }
    requires resource { IsRenewable project.now resource }
    requires capacity { capacity ≤ 1000000 }
    ensures within { result ≤ until }
    ensures value { (t : ℕ) → t < until → (result ≤ t) ↔ (load_at project.now active.now resource t + asked ≤ capacity) }
{
    if capacity < asked {
        return until;
    }
    free_from(project, active, resource, capacity - asked).min(until)
}

/// None where the job in the mode fits on the resource at the start, else the next start to be tried: the end of a stretch
/// in which it doesn't fit, or a period from which on it fits there.
fn next_try_on(
    project: &Project,
    active: &[Active],
    resource: u8,
    job: u8,
    mode: u8,
    start: u32,
) -> Option<u32>
    requires order { AreByFinish active.now }
    requires named { All (IsNamed project.now) active.now }
    requires resource { IsRenewable project.now resource }
    requires job { IsJob project.now job }
    requires mode { IsMode project.now job mode }
    requires time { 0 < duration project.now job mode }
    requires room { HasRoomAt project.now active.now job mode start }
    requires soon { start ≤ 10000 }
    ensures none { IfNone result (FitsOn project.now active.now job mode resource start) }
    ensures some { IfSome result (IsNextTry (FitsOn project.now active.now job mode resource) start) }
{
    let stretches = project.stretches(resource);
    let asked = project.request(job, mode, resource);
    let finish = start + project.duration(job, mode);
    for place in place_at(stretches, start)..stretches.len() - 1 {
        let stretch = stretches[place];
        if finish <= stretch.begin {
            return None;
        }
        let until = stretches[place + 1].begin;
        let free = free_within(project, active, resource, stretch.capacity, asked, until);
        if start.max(stretch.begin) < free {
            return Some(free);
        }
    }
    None
}

/// None where the job in the mode fits at the start, else a later start, before which it doesn't fit.
///
/// Only the stretches that begin within the mode's periods, and the one before them, are looked at.
pub fn next_try(project: &Project, base: &Base, job: u8, mode: u8, start: u32) -> Option<u32>
    requires base { IsBaseOf project.now base.now }
    requires job { IsJob project.now job }
    requires mode { IsMode project.now job mode }
    requires time { 0 < duration project.now job mode }
    requires room { HasRoomAt project.now base.now.active job mode start }
    requires soon { start ≤ 10000 }
    ensures none { IfNone result (FitsBeside project.now base.now.active job mode start) }
    ensures some { IfSome result (IsNextTry (FitsBeside project.now base.now.active job mode) start) }
{
    let active = base.active.as_slice();
    for resource in 1..project.renewables() + 1 {
        if let Some(next) = next_try_on(project, active, resource, job, mode, start) {
            return Some(next);
        }
    }
    None
}
