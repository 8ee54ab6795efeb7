ghost use Rattle.std.specs.Prelude.{IfOk, MatchOption};
ghost use Rattle.rcpsp_model.specs.Plan.{IsSerialPlan};
ghost use Rattle.serial_scheme.specs.Rules.{HasMode, SomeHasNoMode};

use crate::mode_rule::{ModeRule, mode_of};
use crate::priority::{most_urgent, predecessors_done};
use profiles::Profile;
use project_net::Project;
use sched_base::{Job, JobSet, NoMemory};
use std::alloc::Global;

/// All jobs as the serial scheme places them with the modes of the rule, or `None` where a job has no executable mode.
pub fn serial_plan(
    alloc: Global,
    project: &Project,
    rule: ModeRule,
) -> Result<Option<Profile>, NoMemory>
    ensures { IfOk result (λ plan. MatchOption plan (SomeHasNoMode project.now) (λ held. IsSerialPlan project.now (HasMode rule) held.entries)) }
{
    project.known();
    let mut profile = Profile::empty(alloc, project);
    profile.reserve(project.jobs() as usize)?;
    let mut placed = JobSet::empty();
    while let Some(job) = most_urgent(project, placed) {
        let Some(mode) = mode_of(project, rule, job) else {
            return Ok(None);
        };
        let done = predecessors_done(project, profile.entries(), job);
        let start = profile.earliest(project, job, mode, done).unwrap();
        profile.place(project, job, mode, start)?;
        placed = placed.with(Job(job));
    }
    Ok(Some(profile))
}
