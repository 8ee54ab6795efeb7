ghost use Rattle.std.specs.Prelude.{◌≡◌, ◌||◌, true, false, Some, MatchOption};
ghost use Rattle.proof_log.specs.Line.{has_number, is_bare, IsLogLine};
ghost use Rattle.proof_log.specs.Report.{letter_of, fate_number};
ghost use Rattle.proof_log.specs.Text.{log_words};
ghost use Rattle.proof_log.specs.declared.report.LogLine.{LogLine as Told};
ghost use Rattle.log_checker.specs.Said.{fate_said, line_said};

use proof_log::LogWords;

/// A fate as a line says it, whatever its number.
#[derive(Clone, Copy, Debug, PartialEq, Eq)]
pub enum SaidFate {
    Expanded,
    Leaf,
    TailBound,
    WorkBound(u32),
    Budget(u32),
    Capacity(u32),
    Worse(u32),
    Cutset(u32),
    Left(u32),
}

/// A line of a log as it is said, whatever its numbers. The root has job 0 and mode 0.
#[derive(Clone, Copy, Debug, PartialEq, Eq)]
pub struct SaidLine {
    pub job: u32,
    pub mode: u32,
    pub start: Option<u32>,
    pub fate: SaidFate,
}

/// The fate of a letter and its number.
fn fate(letter: u8, number: u32) -> SaidFate
    requires letter { (has_number letter || is_bare letter) ≡ true }
    requires bare { has_number letter ≡ false → number ≡ 0 }
    ensures letter { letter_of (fate_said result) ≡ letter }
    ensures number { fate_number (fate_said result) ≡ number }
{
    match letter {
        b'E' => SaidFate::Expanded,
        b'L' => SaidFate::Leaf,
        b'T' => SaidFate::TailBound,
        b'W' => SaidFate::WorkBound(number),
        b'N' => SaidFate::Budget(number),
        b'X' => SaidFate::Capacity(number),
        b'M' => SaidFate::Worse(number),
        b'C' => SaidFate::Cutset(number),
        _ => SaidFate::Left(number),
    }
}

/// The number of a job or a mode, 0 where there is none; a written 0 stands for none of them.
fn from_one(number: Option<u32>) -> Option<u32>
    ensures { MatchOption result (number ≡ Some 0) (λ n. Rattle.proof_log.specs.Text.from_one n ≡ number) }
{
    match number {
        None => Some(0),
        Some(0) => None,
        Some(number) => Some(number),
    }
}

/// The line with these words; `None` where no line has them, since a job or a mode is written as 0.
pub fn said(words: LogWords) -> Option<SaidLine>
    requires { IsLogLine words }
    ensures { MatchOption result ((line : Told) → log_words line ≡ words → ⊥) (λ line. log_words (line_said line) ≡ words) }
{
    let job = from_one(words.job)?;
    let mode = from_one(words.mode)?;
    Some(SaidLine {
        job,
        mode,
        start: words.start,
        fate: fate(words.letter, words.number),
    })
}
