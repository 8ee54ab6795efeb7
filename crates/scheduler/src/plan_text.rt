//! The text of a plan.

ghost use Rattle.std.specs.Prelude.{◌≡◌, ◌≤◌, ◌++◌, ◌∷◌, [], length, string_bytes, Some, None, IfOk, IfSome, OnOk};
ghost use Rattle.proof_log.specs.Text.{text_of_lines, job_lines};
ghost use Rattle.proof_log.specs.declared.line.ReportLine.TheVariants.{Duration, Job};
ghost use Rattle.scheduler.specs.Answer.{text_of_plan};

use crate::planning::Plan;
use project_net::Schedule;
use std::alloc::{AllocError, Global};

/// The line of the duration.
#[tactic(auto, using(crate::proofs::PlanLines::duration_text))]
fn duration_line(alloc: Global, duration: u32) -> Result<String, AllocError>
    ensures { IfOk result (λ s. string_bytes s ≡ text_of_lines (Duration (Some duration) ∷ [])) }
{
    format!(in alloc; "duration {duration}\n")
}

/// The line where there is no duration.
#[tactic(auto, using(crate::proofs::PlanLines::no_duration_text))]
fn no_duration_line(alloc: Global) -> Result<String, AllocError>
    ensures { IfOk result (λ s. string_bytes s ≡ text_of_lines (Duration None ∷ [])) }
{
    format!(in alloc; "duration -\n")
}

/// The line of a job.
#[tactic(auto, using(crate::proofs::PlanLines::job_text))]
fn job_line(alloc: Global, job: u8, mode: u8, start: u32) -> Result<String, AllocError>
    ensures { IfOk result (λ s. string_bytes s ≡ text_of_lines (Job job mode start ∷ [])) }
{
    format!(in alloc; "job {job} {mode} {start}\n")
}

/// Appends a line for each job.
fn push_jobs(alloc: Global, text: &mut String, places: &Schedule) -> Result<(), AllocError>
    requires { length places.now ≤ 128 }
    ensures { OnOk result (string_bytes text.new ≡ string_bytes text.old ++ text_of_lines (job_lines places.now)) }
{
    for index in 0..places.len() {
        let job = index as u8 + 1;
        let place = places.place(job);
        let line = job_line(alloc, job, place.mode, place.start)?;
        text.push_str(line.as_str())?;
    }
    Ok(())
}

/// The lines of a plan.
#[tactic(auto, using(crate::proofs::PlanLines::plan_parts))]
fn plan_lines(alloc: Global, plan: &Plan) -> Result<String, AllocError>
    requires { length plan.now.places ≤ 128 }
    ensures { IfOk result (λ s. string_bytes s ≡ text_of_lines (Duration (Some plan.now.duration) ∷ job_lines plan.now.places)) }
{
    let mut text = duration_line(alloc, plan.duration)?;
    push_jobs(alloc, &mut text, &plan.places)?;
    Ok(text)
}

/// The text of a plan: its duration and a line for each job, as in a report; a mark alone where there is none.
pub fn plan_text(alloc: Global, plan: &Option<Plan>) -> Result<String, AllocError>
    requires { IfSome plan.now (λ p. length p.places ≤ 128) }
    ensures { IfOk result (λ s. string_bytes s ≡ text_of_plan plan.now) }
{
    match plan {
        Some(plan) => plan_lines(alloc, plan),
        None => no_duration_line(alloc),
    }
}
