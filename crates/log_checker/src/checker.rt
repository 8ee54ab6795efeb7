//! The checker: it takes the bytes of a report in any pieces.

ghost use Rattle.std.specs.Prelude.{◌≡◌, ℕ, ◌++◌, [], List as Items, Some, None, IsSome, IfOk, IfErr, OnOk};

use crate::course::Course;
use crate::feeding::take_piece;
use crate::finishing::judge_end;
use crate::refused::Refused;
use project_net::Project;
use proof_log::LineReader;
use rcpsp_model::Verdict;
use std::alloc::Global;
use std::marker::Model;

/// Judges a report on a project, which comes in pieces. It keeps no text.
#[derive(Drop)]
pub struct Checker<'p> {
    alloc: Global,
    project: &'p Project,
    reader: LineReader,
    number: u32,
    course: Course,
    refused: Option<Refused>,
}

impl<'p> Model for Checker<'p> {
    ghost use Rattle.log_checker.specs.Checker.{CheckerState, IsReadyUnless};

    ghost Value = { CheckerState };

    ghost view = { λ c. record { project = c.project.now; reader = c.reader; number = c.number; course = c.course; refused = c.refused } };

    ghost invariant = { λ c. IsReadyUnless c.project.now c.refused c.course };
}

impl<'p> Checker<'p> {
    ghost use Rattle.log_checker.specs.Checker.{StandsFor, IsFed, IsFinished};

    /// A checker of reports on a project, to which nothing has come; it takes no memory.
    pub fn new(alloc: Global, project: &'p Project) -> Checker<'p>
        ensures project { result.project ≡ project.entry.now }
        ensures stands { StandsFor result [] }
    {
        Checker {
            alloc,
            project,
            reader: LineReader::new(alloc),
            number: 1,
            course: Course::new(alloc),
            refused: None,
        }
    }

    /// Takes the next piece of the report. What was refused stays refused, want of memory too.
    ///
    /// # Errors
    ///
    /// [`Refused::Report`] exactly where the bytes so far break a rule that is judged as they come, with the first such line,
    /// unless it is [`Refused::NoMemory`], where memory was refused.
    pub fn feed(&mut self, piece: &[u8]) -> Result<(), Refused>
        ensures project { self.new.project ≡ self.old.project }
        ensures stands { (bytes : Items ℕ) → StandsFor self.old bytes → StandsFor self.new (bytes ++ piece.now) }
        ensures shown { (bytes : Items ℕ) → StandsFor self.old bytes → IsFed self.new.project (bytes ++ piece.now) result }
        ensures ok { OnOk result (self.new.refused ≡ None) }
        ensures err { IfErr result (λ refused. self.new.refused ≡ Some refused) }
        ensures same { IsSome self.old.refused → self.new.refused ≡ self.old.refused }
    {
        if let Some(refused) = self.refused {
            return Err(refused);
        }
        let refused = take_piece(
            self.alloc,
            self.project,
            &mut self.reader,
            &mut self.number,
            &mut self.course,
            piece,
        );
        self.refused = refused;
        match refused {
            Some(refused) => Err(refused),
            None => Ok(()),
        }
    }

    /// Judges the report at its end.
    ///
    /// # Errors
    ///
    /// [`Refused::Report`] exactly where the text is no accepted report, with the first line that breaks a rule, unless it is
    /// [`Refused::NoMemory`], where memory was refused.
    pub fn finish(self) -> Result<Verdict, Refused>
        ensures judged { (bytes : Items ℕ) → StandsFor self.entry bytes → IsFinished self.entry.project bytes result }
        ensures same { (refused : Refused) → self.entry.refused ≡ Some refused → result ≡ Err refused }
    {
        self.project.known();
        match self.refused {
            Some(refused) => Err(refused),
            None => judge_end(self.project, &self.course, self.number),
        }
    }
}
