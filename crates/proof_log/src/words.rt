ghost use Rattle.std.specs.Prelude.{◌≡◌};
ghost use Rattle.proof_log.specs.Report.{letter_of, fate_number};
ghost use Rattle.proof_log.specs.Text.{from_one, log_words};

use crate::letter;
use crate::line::LogWords;
use crate::report::LogLine;
use sched_base::Fate;

/// The letter of a fate.
fn letter(fate: Fate) -> u8
    ensures { result ≡ letter_of fate }
{
    match fate {
        Fate::Expanded => letter::EXPANDED,
        Fate::Leaf => letter::LEAF,
        Fate::TailBound => letter::TAIL_BOUND,
        Fate::WorkBound(_) => letter::WORK_BOUND,
        Fate::Budget(_) => letter::BUDGET,
        Fate::Capacity(_) => letter::CAPACITY,
        Fate::Worse(_) => letter::WORSE,
        Fate::Cutset(_) => letter::CUTSET,
        Fate::Left(_) => letter::LEFT,
    }
}

/// The number of a fate, 0 where it has none.
fn number(fate: Fate) -> u32
    ensures { result ≡ fate_number fate }
{
    match fate {
        Fate::Expanded | Fate::Leaf | Fate::TailBound => 0,
        Fate::WorkBound(resource) | Fate::Budget(resource) | Fate::Capacity(resource) => {
            u32::from(resource)
        }
        Fate::Worse(mode) => u32::from(mode),
        Fate::Cutset(line) => line,
        Fate::Left(bound) => bound,
    }
}

fn from_one(number: u8) -> Option<u32>
    ensures { result ≡ from_one number }
{
    if number == 0 {
        None
    } else {
        Some(u32::from(number))
    }
}

/// The words of a line of a log.
pub fn log_words(line: LogLine) -> LogWords
    ensures { result ≡ log_words line }
{
    LogWords {
        job: from_one(line.job),
        mode: from_one(line.mode),
        start: line.start,
        letter: letter(line.fate),
        number: number(line.fate),
    }
}
