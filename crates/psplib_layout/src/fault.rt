ghost use Rattle.std.specs.Prelude.{◌≡◌};

use sched_base::NoMemory;
use std::alloc::{AllocError, AllocFailed};

/// A rule of the layout that a text breaks; as a number, its code.
#[derive(Clone, Copy, Debug, PartialEq, Eq)]
pub enum Fault {
    /// The text has too many bytes.
    TextTooLong = 1,
    /// Another line stands where a header line or a title is wanted, or a header line has no colon.
    MissingPart = 2,
    /// A word is no number, or a header line has no value.
    NotANumber = 3,
    /// A number is out of its limits, and no other fault is for it.
    OutOfLimit = 4,
    /// The number of projects isn't 1.
    NotOneProject = 5,
    /// The number of doubly constrained resources isn't 0.
    DoublyConstrained = 6,
    /// A job number isn't the one wanted.
    WrongJobNumber = 7,
    /// A mode number isn't the one wanted.
    WrongModeNumber = 8,
    /// A job has no mode.
    NoModes = 9,
    /// A successor isn't a job of the project.
    SuccessorOutOfRange = 10,
    /// A job is its own successor by some chain.
    Cycle = 11,
    /// The text ends where a line or word is wanted.
    TextEnds = 12,
    /// A word follows the last word of a part on its line, or a line follows the last part.
    WordsLeft = 13,
    /// A row of the calendar names a lower resource than the row before, begins before an earlier row of its resource is
    /// over, or has no period.
    CalendarOrder = 15,
}

/// The first rule that a text breaks, and the number of the line where it does, from 1; 0 for the text as a whole.
#[derive(Clone, Copy, Debug, PartialEq, Eq)]
pub struct Refusal {
    /// The rule.
    pub fault: Fault,
    /// The line.
    pub line: u32,
}

/// Why nothing was read.
#[derive(Clone, Copy, Debug, PartialEq, Eq)]
pub enum ReadError {
    /// Memory was refused.
    NoMemory,
    /// The text breaks a rule.
    Refused(Refusal),
}

impl From<NoMemory> for ReadError {
    ghost use Rattle.std.specs.Prelude.{◌≡◌};
    ghost use Rattle.psplib_layout.specs.declared.fault.ReadError.TheVariants as errors;

    ghost from_gives = { λ _ error. error ≡ errors.NoMemory };

    fn from(_refused: NoMemory) -> ReadError {
        ReadError::NoMemory
    }
}

impl From<AllocError> for ReadError {
    ghost use Rattle.std.specs.Prelude.{◌≡◌};
    ghost use Rattle.psplib_layout.specs.declared.fault.ReadError.TheVariants as errors;

    ghost from_gives = { λ _ error. error ≡ errors.NoMemory };

    fn from(_refused: AllocError) -> ReadError {
        ReadError::NoMemory
    }
}

impl<T: Drop> From<AllocFailed<T>> for ReadError {
    ghost use Rattle.std.specs.Prelude.{◌≡◌};
    ghost use Rattle.psplib_layout.specs.declared.fault.ReadError.TheVariants as errors;

    ghost from_gives = { λ _ error. error ≡ errors.NoMemory };

    fn from(_refused: AllocFailed<T>) -> ReadError {
        ReadError::NoMemory
    }
}

/// The refusal of a text that breaks the rule at the line.
pub(crate) fn refused(fault: Fault, line: u32) -> ReadError
    ensures { result ≡ ReadError.Refused (record { fault = fault; line = line }) }
{
    ReadError::Refused(Refusal { fault, line })
}
