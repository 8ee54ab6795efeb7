ghost use Rattle.std.specs.Prelude.{◌≡◌, ◌≤◌, ◌++◌, [], codes, decimal, string_bytes, IfOk, OnOk, Err};
ghost use Rattle.sched_base.specs.Outside.{Gains, GainsFront, Rose};
ghost use Rattle.scheduler.specs.Answer.{code_of, line, verdict_words, text_of_judgement, text_of_bound_judgement, size_lines, verdict_lines, text_of_trial, text_of, status_of, IsTellable};
ghost use Rattle.scheduler.specs.declared.tell.Untold.TheVariants.{NoMemory, WriteFault};

use crate::answer::{Answer, BoundJudgement, Judgement, Outcome, Trial};
use crate::plan_text::plan_text;
use crate::status::Status;
use plan_words::BadWords;
use proof_log::write_report;
use psplib_layout::{Fault, Refusal};
use rcpsp_model::Verdict;
use sched_base::{Failed, Sink, write_whole};
use std::alloc::{AllocError, Global};

/// Why an answer wasn't told whole.
#[derive(Clone, Copy, Debug, PartialEq, Eq)]
pub enum Untold {
    /// Memory was refused, before anything was written.
    NoMemory,
    /// A call of the sink failed.
    WriteFault,
}

impl From<AllocError> for Untold {
    ghost use Rattle.std.specs.Prelude.{◌≡◌};
    ghost use Rattle.scheduler.specs.declared.tell.Untold.TheVariants.{NoMemory};

    ghost from_gives = { λ _ why. why ≡ NoMemory };

    fn from(_refused: AllocError) -> Untold {
        Untold::NoMemory
    }
}

impl From<Failed> for Untold {
    ghost use Rattle.std.specs.Prelude.{◌≡◌};
    ghost use Rattle.scheduler.specs.declared.tell.Untold.TheVariants.{WriteFault};

    ghost from_gives = { λ _ why. why ≡ WriteFault };

    fn from(_failed: Failed) -> Untold {
        Untold::WriteFault
    }
}

/// The line that tells which word can't stand.
fn bad_words_line(alloc: Global, bad: BadWords) -> Result<String, AllocError>
    ensures { IfOk result (λ s. string_bytes s ≡ codes "bad words: word " ++ line (decimal bad.place)) }
{
    let place = bad.place;
    format!(in alloc; "bad words: word {place}\n")
}

/// The number of a fault.
fn code(fault: Fault) -> u8
    ensures { result ≡ code_of fault }
{
    fault as u8
}

/// The line that tells why a text is no project.
fn bad_project_line(alloc: Global, code: u8, number: u32) -> Result<String, AllocError>
    ensures { IfOk result (λ s. string_bytes s ≡ codes "bad project: code " ++ (decimal code ++ (codes " line " ++ line (decimal number)))) }
{
    format!(in alloc; "bad project: code {code} line {number}\n")
}

/// The line that tells of an accepted report.
fn accepted_line(alloc: Global, verdict: Verdict) -> Result<String, AllocError>
    ensures { IfOk result (λ s. string_bytes s ≡ codes "accepted " ++ verdict_words verdict) }
{
    match verdict {
        Verdict::Optimal { duration } => format!(in alloc; "accepted optimal {duration}\n"),
        Verdict::Infeasible => format!(in alloc; "accepted infeasible\n"),
        Verdict::Limit { lower, .. } => format!(in alloc; "accepted limit {lower}\n"),
    }
}

/// The line that tells why a report isn't accepted.
fn refused_line(alloc: Global, number: u32, reason: u8) -> Result<String, AllocError>
    ensures { IfOk result (λ s. string_bytes s ≡ codes "report refused: line " ++ (decimal number ++ (codes " reason " ++ line (decimal reason)))) }
{
    format!(in alloc; "report refused: line {number} reason {reason}\n")
}

/// The line that tells what a report comes to.
fn judgement_line(alloc: Global, judgement: Judgement) -> Result<String, AllocError>
    ensures { IfOk result (λ s. string_bytes s ≡ text_of_judgement judgement) }
{
    match judgement {
        Judgement::Accepted(verdict) => accepted_line(alloc, verdict),
        Judgement::Refused { line, reason } => refused_line(alloc, line, reason),
    }
}

/// The line that tells what the text of a bound comes to.
fn bound_judgement_line(alloc: Global, judgement: BoundJudgement) -> Result<String, AllocError>
    ensures { IfOk result (λ s. string_bytes s ≡ text_of_bound_judgement judgement) }
{
    match judgement {
        Ok(bound) => format!(in alloc; "accepted bound {bound}\n"),
        Err(refused) => {
            let line = refused.line;
            format!(in alloc; "bound refused: line {line}\n")
        }
    }
}

/// The lines that tell what a made project is.
fn size_lines(alloc: Global, trial: Trial) -> Result<String, AllocError>
    ensures { IfOk result (λ s. string_bytes s ≡ size_lines trial.jobs trial.modes) }
{
    let jobs = trial.jobs;
    let modes = trial.modes;
    format!(in alloc; "jobs {jobs}\nmodes {modes}\n")
}

/// The lines that tell the verdict on it.
fn verdict_lines(alloc: Global, verdict: Verdict) -> Result<String, AllocError>
    ensures { IfOk result (λ s. string_bytes s ≡ verdict_lines verdict) }
{
    match verdict {
        Verdict::Optimal { duration } => {
            format!(in alloc; "verdict optimal\nduration {duration}\nlower {duration}\n")
        }
        Verdict::Infeasible => { format!(in alloc; "verdict infeasible\nduration -\nlower -\n") }
        Verdict::Limit {
            duration: None,
            lower,
        } => { format!(in alloc; "verdict limit\nduration -\nlower {lower}\n") }
        Verdict::Limit {
            duration: Some(duration),
            lower,
        } => { format!(in alloc; "verdict limit\nduration {duration}\nlower {lower}\n") }
    }
}

/// The lines that tell what a made project comes to.
fn trial_lines(alloc: Global, trial: Trial) -> Result<String, AllocError>
    ensures { IfOk result (λ s. string_bytes s ≡ text_of_trial trial) }
{
    let mut text = size_lines(alloc, trial)?;
    let verdict = verdict_lines(alloc, trial.verdict)?;
    text.push_str(verdict.as_str())?;
    Ok(text)
}

/// Writes the text of the answer. All memory is taken before the first byte is written.
fn write_answer<K: Sink>(alloc: Global, out: &mut K, answer: &Answer) -> Result<(), Untold>
    requires { IsTellable answer.now }
    ensures whole { OnOk result (Gains (K.held out.old) (K.held out.new) (text_of answer.now)) }
    ensures front { result ≡ Err WriteFault → GainsFront (K.held out.old) (K.held out.new) (text_of answer.now) }
    ensures fault { result ≡ Err WriteFault → Rose (K.faults out.old) (K.faults out.new) }
    ensures silent { result ≡ Err NoMemory → Gains (K.held out.old) (K.held out.new) [] }
    ensures later { K.faults out.old ≤ K.faults out.new }
{
    match answer {
        Answer::Read(Outcome::Solved(report)) => write_report(out, report)?,
        Answer::Read(Outcome::Planned(plan)) => {
            let lines = plan_text(alloc, plan)?;
            write_whole(out, lines.as_bytes())?;
        }
        Answer::Read(Outcome::Shown(text)) | Answer::Made(text) => write_whole(out, text)?,
        Answer::Read(Outcome::Bounded(text)) => write_whole(out, text)?,
        Answer::Read(Outcome::BadProject(refusal)) => {
            let line = bad_project_line(alloc, code(refusal.fault), refusal.line)?;
            write_whole(out, line.as_bytes())?;
        }
        Answer::Judged(judgement) => {
            let line = judgement_line(alloc, *judgement)?;
            write_whole(out, line.as_bytes())?;
        }
        Answer::Verified(judgement) => {
            let line = bound_judgement_line(alloc, *judgement)?;
            write_whole(out, line.as_bytes())?;
        }
        Answer::Tried(trial) => {
            let lines = trial_lines(alloc, *trial)?;
            write_whole(out, lines.as_bytes())?;
        }
        Answer::BadWords(bad) => {
            let line = bad_words_line(alloc, *bad)?;
            write_whole(out, line.as_bytes())?;
        }
    }
    Ok(())
}

/// Tells the answer, and gives the status that a run ends with which told it. All memory is taken before the first byte is written.
pub fn tell<K: Sink>(alloc: Global, out: &mut K, answer: &Answer) -> Result<Status, Untold>
    requires { IsTellable answer.now }
    ensures status { IfOk result (λ status. status ≡ status_of answer.now) }
    ensures whole { OnOk result (Gains (K.held out.old) (K.held out.new) (text_of answer.now)) }
    ensures front { result ≡ Err WriteFault → GainsFront (K.held out.old) (K.held out.new) (text_of answer.now) }
    ensures fault { result ≡ Err WriteFault → Rose (K.faults out.old) (K.faults out.new) }
    ensures silent { result ≡ Err NoMemory → Gains (K.held out.old) (K.held out.new) [] }
    ensures later { K.faults out.old ≤ K.faults out.new }
{
    write_answer(alloc, out, answer)?;
    Ok(answer.status())
}
