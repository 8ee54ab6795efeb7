ghost use Rattle.std.specs.Prelude.{◌≡◌, ◌≤◌, IfSome};
ghost use Rattle.rcpsp_model.specs.Schedule.{end_of, entries, IsFeasible};
ghost use Rattle.rcpsp_model.specs.Claim.{HasDuration};
ghost use Rattle.search_log.specs.Lean.{end_number};
ghost use Rattle.search_rounds.specs.Found.{end_of_plan};

use project_net::{Project, Schedule};

/// The number of an end that isn't known.
const NONE_YET: u32 = 4294967295;

/// The least end so far, in periods, and a schedule that ends at it; neither where there is none.
#[derive(Drop)]
pub struct Best {
    pub end: Option<u32>,
    pub plan: Option<Schedule>,
}

/// The number of an end, in periods; 4,294,967,295 where there is none.
pub fn number_of(end: Option<u32>) -> u32
    ensures { result ≡ end_number end }
{
    end.unwrap_or(NONE_YET)
}

impl Best {
    /// The best before the first round: the plan, if there is one.
    pub fn of_plan(project: &Project, plan: Option<Schedule>) -> Best
        requires feasible { IfSome plan (IsFeasible project.now) }
        requires soon { IfSome plan (λ s. end_of project.now (entries s) ≤ 1290000) }
        ensures end { result.end ≡ end_of_plan project.now plan }
        ensures plan { HasDuration project.now result.end result.plan }
        ensures soon { IfSome result.end (λ end. end ≤ 1290000) }
    {
        match plan {
            Some(plan) => Best {
                end: Some(project.end(&plan)),
                plan: Some(plan),
            },
            None => Best {
                end: None,
                plan: None,
            },
        }
    }
}
