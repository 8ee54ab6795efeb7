//! The bytes of a text, in any pieces: lines are judged as they end.

ghost use Rattle.std.specs.Prelude.{◌≡◌, ℕ, ◌++◌, true, false, MatchBool, List as Items};
ghost use Rattle.bound_checker.specs.Checker.{Runs, IsReady, IsPart};
ghost use Rattle.bound_checker.specs.Judged.{IsBroken};
ghost use Rattle.bound_checker.specs.Stages.{is_ended};

use crate::course::Course;
use crate::judging::judge_line;
use crate::stage::Stage;
use project_net::Project;
use proof_log::{LineReader, LineStep};

/// What the front of a piece came to.
pub enum Part {
    /// So many bytes of it end a line that may stand there.
    Ended(usize),
    /// All of it goes on with a line.
    Whole,
    /// The line in hand may not stand there.
    Stopped,
}

/// Whether nothing more is wanted.
fn has_ended(stage: Stage) -> bool
    ensures { result ≡ is_ended stage }
{
    matches!(stage, Stage::Ended(_))
}

/// Takes bytes up to and with the next LF, and judges the line that it ends.
fn take_part(project: &Project, reader: &mut LineReader, course: &mut Course, piece: &[u8]) -> Part
    requires ready { IsReady project.now course.old }
    requires goes_on { is_ended course.old.stage ≡ false }
    ensures part { IsPart project.now reader.old course.old piece.now result reader.new course.new }
    ensures ready { IsReady project.now course.new }
{
    project.known();
    let (taken, step) = reader.feed(piece);
    match step {
        LineStep::More => Part::Whole,
        LineStep::TooLong => Part::Stopped,
        LineStep::Line => {
            match judge_line(project, course.stage, &mut course.windows, reader.line()) {
                Some(stage) => {
                    course.stage = stage;
                    course.number = course.number.saturating_add(1);
                    Part::Ended(taken)
                }
                None => Part::Stopped,
            }
        }
    }
}

/// Takes a piece, and says whether no line of it was at fault.
pub fn take_piece(
    project: &Project,
    reader: &mut LineReader,
    course: &mut Course,
    piece: &[u8],
) -> bool
    requires ready { IsReady project.now course.old }
    ensures ready { IsReady project.now course.new }
    ensures stands { (bytes : Items ℕ) → Runs project.now reader.old course.old bytes
        → MatchBool result (Runs project.now reader.new course.new (bytes ++ piece.now)) (IsBroken project.now (bytes ++ piece.now) course.new.number) }
{
    project.known();
    let mut at = 0;
    while at < piece.len() {
        if has_ended(course.stage) {
            return false;
        }
        match take_part(project, reader, course, &piece[at..]) {
            Part::Ended(taken) => at += taken,
            Part::Whole => return true,
            Part::Stopped => return false,
        }
    }
    true
}
