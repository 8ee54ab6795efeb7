//! The end of a report: its last line, the citations of its log, and its lower bound.

ghost use Rattle.std.specs.Prelude.{ℕ, ◌+◌, ◌≤◌, ◌≡◌, ◌↔◌, List as Items, IsTrue};
ghost use Rattle.proof_log.specs.declared.report.LogLine.{LogLine as Line};
ghost use Rattle.proof_log.specs.Lines.{ReaderState};
ghost use Rattle.log_truth.specs.Holds.{HasLower};
ghost use Rattle.log_checker.specs.Walk.{IsLeastLeft};
ghost use Rattle.log_checker.specs.Course.{IsReady};
ghost use Rattle.log_checker.specs.Checker.{Runs, IsOutcome};

use crate::course::Course;
use crate::feeding::refusal;
use crate::reason::Reason;
use crate::refused::Refused;
use crate::stage::Stage;
use project_net::Project;
use rcpsp_model::Verdict;

/// Whether the lower bound of a verdict is the least number of a line that was left.
fn has_lower(verdict: Verdict, least: Option<u32>) -> bool
    ensures { (lines : Items Line) → IsLeastLeft lines least → IsTrue result ↔ HasLower verdict lines }
{
    match verdict {
        Verdict::Optimal { duration: _ } => true,
        Verdict::Infeasible => true,
        Verdict::Limit { duration: _, lower } => match least {
            Some(least) => least == lower,
            None => false,
        },
    }
}

/// The number of a line of the report that is such a line of the log, after so many job lines.
fn report_line(jobs: usize, line: u32) -> u32
    ensures { jobs ≤ 128 → line ≤ 51200001 → result ≡ 5 + jobs + line }
{
    let jobs = if jobs <= 128 { jobs as u32 } else { 128 };
    line.saturating_add(5 + jobs)
}

/// Judges the report at its end, where its bytes break no rule yet; the number is that of the line after its whole lines.
pub fn judge_end(project: &Project, course: &Course, number: u32) -> Result<Verdict, Refused>
    requires { IsReady project.now course.now }
    ensures { (reader : ReaderState) (bytes : Items ℕ) → Runs project.now reader number course.now bytes → IsOutcome project.now bytes result }
{
    project.known();
    let Stage::Ended(verdict) = course.stage else {
        return Err(refusal(number, Reason::TextEnds));
    };
    match course.walk.first_unserved(project) {
        Err(_) => return Err(Refused::NoMemory),
        Ok(Some(line)) => {
            return Err(refusal(report_line(course.places.len(), line), Reason::BadCitation));
        }
        Ok(None) => {}
    }
    if !has_lower(verdict, course.walk.least) {
        return Err(refusal(4, Reason::BadVerdict));
    }
    Ok(verdict)
}
