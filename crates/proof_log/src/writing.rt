ghost use Rattle.std.specs.Prelude.{◌≡◌, ◌≤◌, ◌∷◌, [], length, IfSome, OnOk, OnErr};
ghost use Rattle.sched_base.specs.Outside.{Gains, GainsFront, HasCause};
ghost use Rattle.proof_log.specs.Report.{IsReport, duration_of, lower_of};
ghost use Rattle.proof_log.specs.Text.{text, text_of_lines, verdict_line, verdict_lines, job_lines, best_part, log_lines, log_part};

use crate::line::ReportLine;
use crate::line_text::line_text;
use crate::report::{Log, Report};
use crate::words::log_words;
use project_net::Schedule;
use rcpsp_model::Verdict;
use sched_base::{Failed, Sink, write_whole};

/// Appends a line and its LF.
#[tactic(auto, using(crate::proofs::WrittenParts::text_of_line))]
fn write_line<K: Sink>(out: &mut K, line: ReportLine) -> Result<(), Failed>
    ensures whole { OnOk result (Gains (K.held out.old) (K.held out.new) (text_of_lines (line ∷ []))) }
    ensures front { OnErr result (GainsFront (K.held out.old) (K.held out.new) (text_of_lines (line ∷ []))) }
    ensures cause { HasCause (K.faults out.old) (K.faults out.new) result }
{
    let text = line_text(line);
    write_whole(out, text.as_slice())
}

fn verdict_line(verdict: Verdict) -> ReportLine
    ensures { result ≡ verdict_line verdict }
{
    match verdict {
        Verdict::Optimal { .. } => ReportLine::Optimal,
        Verdict::Infeasible => ReportLine::Infeasible,
        Verdict::Limit { .. } => ReportLine::Limit,
    }
}

fn duration(verdict: Verdict) -> Option<u32>
    ensures { result ≡ duration_of verdict }
{
    match verdict {
        Verdict::Optimal { duration } => Some(duration),
        Verdict::Infeasible => None,
        Verdict::Limit { duration, .. } => duration,
    }
}

fn lower(verdict: Verdict) -> Option<u32>
    ensures { result ≡ lower_of verdict }
{
    match verdict {
        Verdict::Optimal { duration } => Some(duration),
        Verdict::Infeasible => None,
        Verdict::Limit { lower, .. } => Some(lower),
    }
}

/// Appends lines as they are.
fn write_lines<K: Sink>(out: &mut K, lines: &[ReportLine]) -> Result<(), Failed>
    ensures whole { OnOk result (Gains (K.held out.old) (K.held out.new) (text_of_lines lines.now)) }
    ensures front { OnErr result (GainsFront (K.held out.old) (K.held out.new) (text_of_lines lines.now)) }
    ensures cause { HasCause (K.faults out.old) (K.faults out.new) result }
{
    for line in lines {
        write_line(out, *line)?;
    }
    Ok(())
}

/// Appends the title, and what the verdict says.
fn write_verdict<K: Sink>(out: &mut K, verdict: Verdict) -> Result<(), Failed>
    ensures whole { OnOk result (Gains (K.held out.old) (K.held out.new) (text_of_lines (verdict_lines verdict))) }
    ensures front { OnErr result (GainsFront (K.held out.old) (K.held out.new) (text_of_lines (verdict_lines verdict))) }
    ensures cause { HasCause (K.faults out.old) (K.faults out.new) result }
{
    let lines = [
        ReportLine::Title,
        verdict_line(verdict),
        ReportLine::Duration(duration(verdict)),
        ReportLine::Lower(lower(verdict)),
    ];
    write_lines(out, &lines)
}

/// Appends a line for each job.
fn write_jobs<K: Sink>(out: &mut K, places: &Schedule) -> Result<(), Failed>
    requires { length places.now ≤ 128 }
    ensures whole { OnOk result (Gains (K.held out.old) (K.held out.new) (text_of_lines (job_lines places.now))) }
    ensures front { OnErr result (GainsFront (K.held out.old) (K.held out.new) (text_of_lines (job_lines places.now))) }
    ensures cause { HasCause (K.faults out.old) (K.faults out.new) result }
{
    for index in 0..places.len() {
        let job = index as u8 + 1;
        let place = places.place(job);
        write_line(
            out,
            ReportLine::Job(u32::from(job), u32::from(place.mode), place.start),
        )?;
    }
    Ok(())
}

/// Appends a line for each job of the schedule, where there is one.
fn write_best<K: Sink>(out: &mut K, best: &Option<Schedule>) -> Result<(), Failed>
    requires { IfSome best.now (λ places. length places ≤ 128) }
    ensures whole { OnOk result (Gains (K.held out.old) (K.held out.new) (text_of_lines (best_part best.now))) }
    ensures front { OnErr result (GainsFront (K.held out.old) (K.held out.new) (text_of_lines (best_part best.now))) }
    ensures cause { HasCause (K.faults out.old) (K.faults out.new) result }
{
    match best {
        None => Ok(()),
        Some(places) => write_jobs(out, places),
    }
}

/// Appends the lines of the log.
fn write_log_lines<K: Sink>(out: &mut K, log: &Log) -> Result<(), Failed>
    ensures whole { OnOk result (Gains (K.held out.old) (K.held out.new) (text_of_lines (log_lines log.now))) }
    ensures front { OnErr result (GainsFront (K.held out.old) (K.held out.new) (text_of_lines (log_lines log.now))) }
    ensures cause { HasCause (K.faults out.old) (K.faults out.new) result }
{
    for line in log.as_slice() {
        write_line(out, ReportLine::Log(log_words(*line)))?;
    }
    Ok(())
}

/// Appends the log, or that there is none.
fn write_log<K: Sink>(out: &mut K, log: &Option<Log>) -> Result<(), Failed>
    ensures whole { OnOk result (Gains (K.held out.old) (K.held out.new) (text_of_lines (log_part log.now))) }
    ensures front { OnErr result (GainsFront (K.held out.old) (K.held out.new) (text_of_lines (log_part log.now))) }
    ensures cause { HasCause (K.faults out.old) (K.faults out.new) result }
{
    match log {
        None => write_line(out, ReportLine::LogNo),
        Some(log) => {
            write_line(out, ReportLine::LogYes)?;
            write_log_lines(out, log)?;
            Ok(())
        }
    }
}

/// Appends the text of a report, a write for each line. It takes no memory.
///
/// # Errors
///
/// [`Failed`] only where the sink counted it; then a prefix of the text was appended.
pub fn write_report<K: Sink>(out: &mut K, report: &Report) -> Result<(), Failed>
    requires { IsReport report.now }
    ensures whole { OnOk result (Gains (K.held out.old) (K.held out.new) (text report.now)) }
    ensures front { OnErr result (GainsFront (K.held out.old) (K.held out.new) (text report.now)) }
    ensures cause { HasCause (K.faults out.old) (K.faults out.new) result }
{
    write_verdict(out, report.verdict)?;
    write_best(out, &report.best)?;
    write_log(out, &report.log)?;
    write_line(out, ReportLine::End)?;
    Ok(())
}
