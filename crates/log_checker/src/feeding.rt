//! The bytes of a report, in any pieces: lines are judged as they end.

ghost use Rattle.std.specs.Prelude.{◌≡◌, ℕ, ◌++◌, false, List as Items, None};
ghost use Rattle.log_checker.specs.declared.refused.Refused.TheVariants.{Report};
ghost use Rattle.log_checker.specs.Reasons.{number_of};
ghost use Rattle.log_checker.specs.Progress.{is_ended};
ghost use Rattle.log_checker.specs.Course.{IsReady};
ghost use Rattle.log_checker.specs.Checker.{Runs, IsPart, IsAfter};

use crate::course::Course;
use crate::reason::Reason;
use crate::refused::Refused;
use crate::stage::Stage;
use project_net::Project;
use proof_log::{LineReader, LineStep};
use std::alloc::Global;

/// What the front of a piece came to.
pub enum Part {
    /// So many bytes of it end a line that breaks no rule.
    Ended(usize),
    /// All of it goes on with a line.
    Whole,
    /// The report is refused.
    Stopped(Refused),
}

/// The refusal of a line for a reason.
pub fn refusal(line: u32, reason: Reason) -> Refused
    ensures { result ≡ Report line (number_of reason) }
{
    Refused::Report {
        line,
        reason: reason.number(),
    }
}

fn has_ended(stage: Stage) -> bool
    ensures { result ≡ is_ended stage }
{
    matches!(stage, Stage::Ended(_))
}

/// Takes bytes up to and with the next LF, and judges the line that it ends.
fn take_part(
    alloc: Global,
    project: &Project,
    reader: &mut LineReader,
    number: &mut u32,
    course: &mut Course,
    piece: &[u8],
) -> Part
    requires ready { IsReady project.now course.old }
    requires goes_on { is_ended course.old.stage ≡ false }
    ensures { IsPart project.now reader.old number.old course.old piece.now result reader.new number.new course.new }
{
    project.known();
    let (taken, step) = reader.feed(piece);
    match step {
        LineStep::More => Part::Whole,
        LineStep::TooLong => Part::Stopped(refusal(*number, Reason::BadLine)),
        LineStep::Line => match course.take(alloc, project, reader.line()) {
            Ok(judged) => match judged {
                None => {
                    *number = number.saturating_add(1);
                    Part::Ended(taken)
                }
                Some(reason) => Part::Stopped(refusal(*number, reason)),
            },
            Err(_) => Part::Stopped(Refused::NoMemory),
        },
    }
}

/// Takes a piece, and gives the refusal if there is one.
pub fn take_piece(
    alloc: Global,
    project: &Project,
    reader: &mut LineReader,
    number: &mut u32,
    course: &mut Course,
    piece: &[u8],
) -> Option<Refused>
    requires { IsReady project.now course.old }
    ensures ready { result ≡ None → IsReady project.now course.new }
    ensures stands { (bytes : Items ℕ) → Runs project.now reader.old number.old course.old bytes → IsAfter project.now reader.new number.new course.new (bytes ++ piece.now) result }
{
    project.known();
    let mut at = 0;
    while at < piece.len() {
        if has_ended(course.stage) {
            return Some(refusal(*number, Reason::LinesLeft));
        }
        match take_part(alloc, project, reader, number, course, &piece[at..]) {
            Part::Ended(taken) => at += taken,
            Part::Whole => return None,
            Part::Stopped(refused) => return Some(refused),
        }
    }
    None
}
