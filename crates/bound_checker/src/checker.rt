//! The checker: it takes the bytes of the text of a bound in any pieces.

ghost use Rattle.std.specs.Prelude.{◌≡◌, ℕ, ◌++◌, [], List as Items, Some, None, Err, IsSome, IfErr, OnOk};
ghost use Rattle.proof_log.specs.Lines.{ReaderState};
ghost use Rattle.bound_checker.specs.Checker.{Runs, IsJudgement};

use crate::course::Course;
use crate::feeding::take_piece;
use crate::stage::Stage;
use project_net::Project;
use proof_log::LineReader;
use std::alloc::Global;
use std::marker::Model;
use window_refuter::Windows;

/// No text of which each line may stand there has more bytes: it has at most 330,240,004 lines of 65 bytes each, and then 64 bytes of a
/// line without an end.
pub const MOST_TEXT: usize = 21_465_600_324;

/// Why the text of a bound isn't accepted.
#[derive(Clone, Copy, Debug, PartialEq, Eq)]
pub struct BoundRefusal {
    /// The number of the first line that may not stand there, from 1.
    pub line: u32,
}

/// Judges a text at its end, where each of its lines may stand there.
fn outcome(project: &Project, course: &Course) -> Result<u32, BoundRefusal>
    ensures { (reader : ReaderState) (bytes : Items ℕ) → Runs project.now reader course.now bytes → IsJudgement project.now bytes result }
{
    project.known();
    match course.stage {
        Stage::Ended(bound) => Ok(bound),
        _ => Err(BoundRefusal {
            line: course.number,
        }),
    }
}

/// Judges the text of a bound of a project, which comes in pieces. It keeps no text.
#[derive(Drop)]
pub struct BoundChecker<'p> {
    project: &'p Project,
    reader: LineReader,
    course: Course,
    refused: Option<BoundRefusal>,
}

impl<'p> Model for BoundChecker<'p> {
    ghost use Rattle.bound_checker.specs.Checker.{BoundCheckerState, IsReady};

    ghost Value = { BoundCheckerState };

    ghost view = { λ c. record { project = c.project.now; reader = c.reader; course = c.course; refused = c.refused } };

    ghost invariant = { λ c. IsReady c.project.now c.course };
}

impl<'p> BoundChecker<'p> {
    ghost use Rattle.bound_checker.specs.Checker.{StandsFor, IsFed};

    /// A checker of texts of bounds of a project, to which nothing has come; it takes no memory.
    pub fn new(alloc: Global, project: &'p Project) -> BoundChecker<'p>
        ensures project { result.project ≡ project.entry.now }
        ensures stands { StandsFor result [] }
        ensures unrefused { result.refused ≡ None }
    {
        BoundChecker {
            project,
            reader: LineReader::new(alloc),
            course: Course {
                stage: Stage::Title,
                windows: Windows::new(project, 0),
                number: 1,
            },
            refused: None,
        }
    }

    /// Takes the next piece of the text. What was refused stays refused. It takes no memory.
    ///
    /// # Errors
    ///
    /// [`BoundRefusal`] exactly where the bytes so far have a line that may not stand there, with the first such line.
    pub fn feed(&mut self, piece: &[u8]) -> Result<(), BoundRefusal>
        ensures project { self.new.project ≡ self.old.project }
        ensures stands { (bytes : Items ℕ) → StandsFor self.old bytes → StandsFor self.new (bytes ++ piece.now) }
        ensures shown { (bytes : Items ℕ) → StandsFor self.old bytes → IsFed self.new.project (bytes ++ piece.now) result }
        ensures ok { OnOk result (self.new.refused ≡ None) }
        ensures err { IfErr result (λ refused. self.new.refused ≡ Some refused) }
        ensures same { IsSome self.old.refused → self.new.refused ≡ self.old.refused }
    {
        self.project.known();
        if let Some(refused) = self.refused {
            return Err(refused);
        }
        if take_piece(self.project, &mut self.reader, &mut self.course, piece) {
            return Ok(());
        }
        let refused = BoundRefusal {
            line: self.course.number,
        };
        self.refused = Some(refused);
        Err(refused)
    }

    /// Judges the text at its end: the bound, before which no feasible schedule ends.
    ///
    /// # Errors
    ///
    /// [`BoundRefusal`] exactly where the text is no such text of a bound that its steps show, with the first line that may not
    /// stand there.
    pub fn finish(self) -> Result<u32, BoundRefusal>
        ensures judged { (bytes : Items ℕ) → StandsFor self.entry bytes → IsJudgement self.entry.project bytes result }
        ensures same { (refused : BoundRefusal) → self.entry.refused ≡ Some refused → result ≡ Err refused }
    {
        self.project.known();
        match self.refused {
            Some(refused) => Err(refused),
            None => outcome(self.project, &self.course),
        }
    }
}
