//! The greatest and the least start at which a job fits beside the others.
//!
//! Both go from change to change: as long as there is room, the span in hand grows; where there is none, it begins anew behind.

ghost use Rattle.std.specs.Prelude.{◌≡◌, ℕ, ◌+◌, ◌≤◌};
ghost use Rattle.rcpsp_model.specs.Project.{IsJob};
ghost use Rattle.rcpsp_model.specs.Chain.{IsLeast, IsGreatest};
ghost use Rattle.rcpsp_model.specs.Tree.{Fits};
ghost use Rattle.project_net.specs.Feasible.{IsPlaced};
ghost use Rattle.justify_plans.specs.Placings.{mode_in, start_in, finish_in, others};
ghost use Rattle.justify_plans.specs.Room.{FitsBy, FitsFrom};

use crate::changes::{last_change, next_change};
use crate::places::entry_of;
use crate::room::has_room;
use project_net::Project;
use rcpsp_model::Placing;

/// The greatest start at which a job is done by a time and fits beside the other jobs, as it does where it is.
pub fn last_fit(project: &Project, places: &[Placing], job: u8, until: u32) -> u32
    requires job { IsJob project.now job }
    requires placed { IsPlaced project.now places.now }
    requires until { until ≤ 1290000 }
    requires now { FitsBy project.now (others places.now job) until job (mode_in places.now job) (start_in places.now job) }
    ensures { IsGreatest (FitsBy project.now (others places.now job) until job (mode_in places.now job)) result }
{
    let entry = entry_of(project, places, job);
    let duration = project.duration(job, entry.mode);
    let mut finish = until;
    let mut begin = until;
    'spans: while finish < begin + duration {
        begin = last_change(project, places, entry.start, begin);
        if !has_room(project, places, job, begin) {
            finish = begin;
        }
    }
    finish - duration
}

/// The least start at or after a time at which a job fits beside the other jobs, as it does where it is.
pub fn first_fit(project: &Project, places: &[Placing], job: u8, from: u32) -> u32
    requires job { IsJob project.now job }
    requires placed { IsPlaced project.now places.now }
    requires now { FitsFrom project.now (others places.now job) from job (mode_in places.now job) (start_in places.now job) }
    ensures { IsLeast (FitsFrom project.now (others places.now job) from job (mode_in places.now job)) result }
{
    let entry = entry_of(project, places, job);
    let duration = project.duration(job, entry.mode);
    let until = entry.start + duration;
    let mut start = from;
    let mut end = from;
    'spans: while end < start + duration {
        let at = end;
        end = next_change(project, places, at, until);
        if !has_room(project, places, job, at) {
            start = end;
        }
    }
    start
}
