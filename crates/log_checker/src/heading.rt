//! The lines of a report before its job lines and its log, whose text alone decides.

ghost use Rattle.std.specs.Prelude.{◌≡◌};
ghost use Rattle.log_checker.specs.Progress.{allows_duration, verdict_by, verdict_stage, duration_stage, lower_stage, head_stage};

use crate::reason::Reason;
use crate::stage::{Kind, Stage};
use proof_log::ReportLine;
use rcpsp_model::Verdict;

/// Whether the kind of verdict allows the duration.
fn allows(kind: Kind, duration: Option<u32>) -> bool
    ensures { result ≡ allows_duration kind duration }
{
    match kind {
        Kind::Optimal => duration.is_some(),
        Kind::Infeasible => duration.is_none(),
        Kind::Limit => true,
    }
}

/// The verdict of this kind, by its duration and its lower bound.
fn verdict(kind: Kind, duration: Option<u32>, bound: Option<u32>) -> Option<Verdict>
    ensures { result ≡ verdict_by kind duration bound }
{
    match (kind, duration, bound) {
        (Kind::Optimal, Some(duration), Some(bound)) => {
            (bound == duration).then_some(Verdict::Optimal { duration })
        }
        (Kind::Infeasible, None, None) => Some(Verdict::Infeasible),
        (Kind::Limit, None, Some(lower)) => Some(Verdict::Limit {
            duration: None,
            lower,
        }),
        (Kind::Limit, Some(duration), Some(lower)) => (lower < duration).then_some(
            Verdict::Limit {
                duration: Some(duration),
                lower,
            },
        ),
        _ => None,
    }
}

/// What is wanted after the line of the duration.
fn after_duration(kind: Kind, line: Option<ReportLine>) -> Result<Stage, Reason>
    ensures { result ≡ duration_stage kind line }
{
    match line {
        Some(ReportLine::Duration(duration)) => {
            if allows(kind, duration) {
                Ok(Stage::Lower(kind, duration))
            } else {
                Err(Reason::BadVerdict)
            }
        }
        _ => Err(Reason::BadLine),
    }
}

/// What is wanted after the heading with this verdict.
fn after_heading(verdict: Option<Verdict>) -> Result<Stage, Reason>
    ensures { result ≡ verdict_stage verdict }
{
    match verdict {
        None => Err(Reason::BadVerdict),
        Some(Verdict::Infeasible) => Ok(Stage::Flag(Verdict::Infeasible)),
        Some(
            Verdict::Limit {
                duration: None,
                lower,
            },
        ) => Ok(Stage::Flag(Verdict::Limit {
            duration: None,
            lower,
        })),
        Some(verdict) => Ok(Stage::Job(verdict)),
    }
}

/// What is wanted after the line of the lower bound.
fn after_lower(kind: Kind, duration: Option<u32>, line: Option<ReportLine>) -> Result<Stage, Reason>
    ensures { result ≡ lower_stage kind duration line }
{
    match line {
        Some(ReportLine::Lower(bound)) => after_heading(verdict(kind, duration, bound)),
        _ => Err(Reason::BadLine),
    }
}

/// What is wanted after a line that is neither a job's nor the log's.
pub fn next_stage(stage: Stage, line: Option<ReportLine>) -> Result<Stage, Reason>
    ensures { result ≡ head_stage stage line }
{
    match (stage, line) {
        (Stage::Title, Some(ReportLine::Title)) => Ok(Stage::Kind),
        (Stage::Kind, Some(ReportLine::Optimal)) => Ok(Stage::Duration(Kind::Optimal)),
        (Stage::Kind, Some(ReportLine::Infeasible)) => Ok(Stage::Duration(Kind::Infeasible)),
        (Stage::Kind, Some(ReportLine::Limit)) => Ok(Stage::Duration(Kind::Limit)),
        (Stage::Duration(kind), line) => after_duration(kind, line),
        (Stage::Lower(kind, duration), line) => after_lower(kind, duration, line),
        (Stage::Flag(verdict), Some(ReportLine::LogYes)) => Ok(Stage::Line(verdict)),
        _ => Err(Reason::BadLine),
    }
}
