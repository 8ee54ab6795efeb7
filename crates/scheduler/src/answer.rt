ghost use Rattle.std.specs.Prelude.{◌≡◌};
ghost use Rattle.scheduler.specs.Answer.{status_of_plan, status_of_verdict};

use crate::planning::Plan;
use crate::status::Status;
use bound_checker::BoundRefusal;
use plan_words::BadWords;
use proof_log::Report;
use psplib_layout::Refusal;
use rcpsp_model::Verdict;

/// What a project text comes to.
#[derive(Drop)]
pub enum Outcome {
    /// It is a project that is to be solved, with this report.
    Solved(Report),
    /// It is a project that is to be planned: this plan, or none was made.
    Planned(Option<Plan>),
    /// It is a project that is to be shown, with this canonical text.
    Shown(Vec<u8>),
    /// It is a project whose window bound is asked for, with this text.
    Bounded(Vec<u8>),
    /// It is no project.
    BadProject(Refusal),
}

/// What a report comes to where it is judged.
#[derive(Clone, Copy, Debug, PartialEq, Eq)]
pub enum Judgement {
    /// It is accepted, as one of this verdict.
    Accepted(Verdict),
    /// A line of it, from 1, breaks a rule, for a reason of a number from 1 to 9.
    Refused { line: u32, reason: u8 },
}

/// What the text of a bound comes to where it is judged: its bound, or the first line that may not stand there.
pub type BoundJudgement = Result<u32, BoundRefusal>;

/// What a made project comes to where it is solved.
#[derive(Clone, Copy, Debug, PartialEq, Eq)]
pub struct Trial {
    /// How many jobs it has, 3 to 128.
    pub jobs: u8,
    /// How many modes each job that takes time has, 1 to 4.
    pub modes: u8,
    /// The verdict of the report on it.
    pub verdict: Verdict,
}

/// What a run has to tell.
#[derive(Drop)]
pub enum Answer {
    /// The words speak of a project text, which comes to this.
    Read(Outcome),
    /// The words speak of a report, which comes to this.
    Judged(Judgement),
    /// The words speak of the text of a bound, which comes to this.
    Verified(BoundJudgement),
    /// The words ask for a made project, with this canonical text.
    Made(Vec<u8>),
    /// The words ask to solve a made project, which comes to this.
    Tried(Trial),
    /// The words are no command.
    BadWords(BadWords),
}

/// The status of a verdict.
fn verdict_status(verdict: Verdict) -> Status
    ensures { result ≡ status_of_verdict verdict }
{
    match verdict {
        Verdict::Optimal { .. } => Status::Done,
        Verdict::Infeasible => Status::Infeasible,
        Verdict::Limit { .. } => Status::Limit,
    }
}

/// The status of a plan, or of none.
fn plan_status(plan: &Option<Plan>) -> Status
    ensures { result ≡ status_of_plan plan.now }
{
    match plan {
        Some(_) => Status::Done,
        None => Status::Limit,
    }
}

impl Answer {
    ghost use Rattle.scheduler.specs.Answer.{status_of};

    /// The status that the answer has.
    pub fn status(&self) -> Status
        ensures { result ≡ status_of self.now }
    {
        match self {
            Answer::Read(Outcome::Solved(report)) => verdict_status(report.verdict),
            Answer::Read(Outcome::Planned(plan)) => plan_status(plan),
            Answer::Read(Outcome::Shown(_) | Outcome::Bounded(_)) | Answer::Made(_) => {
                Status::Done
            }
            Answer::Read(Outcome::BadProject(_)) => Status::BadProject,
            Answer::Tried(trial) => verdict_status(trial.verdict),
            Answer::Judged(Judgement::Accepted(_)) => Status::Done,
            Answer::Judged(Judgement::Refused { .. }) => Status::ReportRefused,
            Answer::Verified(Ok(_)) => Status::Done,
            Answer::Verified(Err(_)) => Status::ReportRefused,
            Answer::BadWords(_) => Status::BadWords,
        }
    }
}
