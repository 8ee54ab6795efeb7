ghost use Rattle.std.specs.Prelude.{◌≡◌, ℕ, ◌+◌, ◌≤◌, ◌∷◌, [], ◌++◌, length};
ghost use Rattle.std.specs.List.{join_with_byte};
ghost use Rattle.arrayvec.specs.ArrayVec.{array_vec_len};
ghost use Rattle.proof_log.specs.Line.{number_word, fate_words, log_line_words, line_text as text_of};

use crate::letter::{BUDGET, CAPACITY, CUTSET, LEFT, WORK_BOUND, WORSE};
use crate::line::{LogWords, ReportLine};
use arrayvec::ArrayVec;
use itoa::Buffer;

/// A line and its LF, on the stack.
pub type LineText = ArrayVec<u8, 65>;

fn push_bytes(text: &mut LineText, bytes: &[u8])
    requires { array_vec_len text.old + length bytes.now ≤ 65 }
    ensures { text.new.items ≡ text.old.items ++ bytes.now }
{
    let _ = text.try_extend_from_slice(bytes);
}

/// Appends a number, or `-`.
#[tactic(auto, unfolding(crate::specs::Line::number_word))]
fn push_number(text: &mut LineText, number: Option<u32>)
    requires { array_vec_len text.old ≤ 55 }
    ensures items { text.new.items ≡ text.old.items ++ number_word number }
    ensures room { array_vec_len text.new ≤ array_vec_len text.old + 10 }
{
    match number {
        None => push_bytes(text, b"-"),
        Some(number) => {
            let mut buffer = Buffer::new();
            push_bytes(text, buffer.format(number).as_bytes());
        }
    }
}

/// Appends a blank and a number, or `-`.
fn push_number_word(text: &mut LineText, number: Option<u32>)
    requires { array_vec_len text.old ≤ 54 }
    ensures items { text.new.items ≡ text.old.items ++ 0x20 ∷ number_word number }
    ensures room { array_vec_len text.new ≤ array_vec_len text.old + 11 }
{
    text.push(b' ');
    push_number(text, number);
}

pub fn has_number(letter: u8) -> bool
    ensures { result ≡ Rattle.proof_log.specs.Line.has_number letter }
{
    letter == WORK_BOUND
        || letter == BUDGET
        || letter == CAPACITY
        || letter == WORSE
        || letter == CUTSET
        || letter == LEFT
}

/// Appends a blank, the letter of a fate, and its number.
#[tactic(auto, unfolding(crate::specs::Line::fate_words))]
fn push_fate(text: &mut LineText, letter: u8, number: u32)
    requires { array_vec_len text.old ≤ 50 }
    ensures items { text.new.items ≡ text.old.items ++ 0x20 ∷ join_with_byte 0x20 (fate_words letter number) }
    ensures room { array_vec_len text.new ≤ array_vec_len text.old + 13 }
{
    text.push(b' ');
    text.push(letter);
    if has_number(letter) {
        push_number_word(text, Some(number));
    }
}

#[tactic(auto, unfolding(crate::specs::Line::log_line_words))]
fn push_log_line(text: &mut LineText, line: LogWords)
    requires { array_vec_len text.old ≡ 0 }
    ensures items { text.new.items ≡ join_with_byte 0x20 (log_line_words line) }
    ensures room { array_vec_len text.new ≤ 64 }
{
    push_number(text, line.job);
    push_number_word(text, line.mode);
    push_number_word(text, line.start);
    push_fate(text, line.letter, line.number);
}

#[tactic(auto, unfolding(crate::specs::Line::line_text, crate::specs::Line::line_words))]
fn push_job(text: &mut LineText, job: u32, mode: u32, start: u32)
    requires { array_vec_len text.old ≡ 0 }
    ensures items { text.new.items ≡ text_of (ReportLine.Job job mode start) }
    ensures room { array_vec_len text.new ≤ 64 }
{
    push_bytes(text, b"job");
    push_number_word(text, Some(job));
    push_number_word(text, Some(mode));
    push_number_word(text, Some(start));
}

/// Appends a line of a word and a number, or `-`.
fn push_pair(text: &mut LineText, word: &[u8], number: Option<u32>)
    requires empty { array_vec_len text.old ≡ 0 }
    requires short { length word.now ≤ 20 }
    ensures items { text.new.items ≡ join_with_byte 0x20 (word.now ∷ number_word number ∷ []) }
    ensures room { array_vec_len text.new ≤ 64 }
{
    push_bytes(text, word);
    push_number_word(text, number);
}

#[tactic(auto, unfolding(crate::specs::Line::line_text, crate::specs::Line::line_words))]
fn push_line(text: &mut LineText, line: ReportLine)
    requires { array_vec_len text.old ≡ 0 }
    ensures items { text.new.items ≡ text_of line }
    ensures room { array_vec_len text.new ≤ 64 }
{
    match line {
        ReportLine::Title => push_bytes(text, b"psplib-report 1"),
        ReportLine::Optimal => push_bytes(text, b"verdict optimal"),
        ReportLine::Infeasible => push_bytes(text, b"verdict infeasible"),
        ReportLine::Limit => push_bytes(text, b"verdict limit"),
        ReportLine::Duration(number) => push_pair(text, b"duration", number),
        ReportLine::Lower(number) => push_pair(text, b"lower", number),
        ReportLine::Job(job, mode, start) => push_job(text, job, mode, start),
        ReportLine::LogYes => push_bytes(text, b"log yes"),
        ReportLine::LogNo => push_bytes(text, b"log no"),
        ReportLine::Log(line) => push_log_line(text, line),
        ReportLine::End => push_bytes(text, b"end"),
    }
}

/// The bytes of a line and its LF.
pub fn line_text(line: ReportLine) -> LineText
    ensures { result.items ≡ text_of line ++ 0x0A ∷ [] }
{
    let mut text = ArrayVec::new();
    push_line(&mut text, line);
    text.push(b'\n');
    text
}
