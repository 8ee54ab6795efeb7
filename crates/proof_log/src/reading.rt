ghost use Rattle.std.specs.Prelude.{◌≡◌, ◌∷◌, [], MatchOption, option_copied, position, ◌==◌};
ghost use Rattle.std.specs.Str.{bytes_eq};
ghost use Rattle.proof_log.specs.Line.{is_bare, is_shut};
ghost use Rattle.proof_log.specs.Reading.{may_be_number, number_in, place_in, single_in, verdict_in, log_flag_in, title_in, pair_in, job_in, fate_number_in, fate_in, letter_in, is_place, placed_in, log_in, four_in, line_in, words_in};

use crate::letter::{BUDGET, CAPACITY, EXPANDED, LEAF, TAIL_BOUND, WORSE};
use crate::line::{LogWords, ReportLine};
use crate::line_text::has_number;

fn is_word(word: &[u8], text: &[u8]) -> bool
    ensures { result ≡ bytes_eq word.now text.now }
{
    word == text
}

#[tactic(auto, unfolding(crate::specs::Reading::may_be_number))]
/// Whether the word is from one to nine digits, of which the first is no 0 before others.
fn may_be_number(word: &[u8]) -> bool
    ensures { result ≡ may_be_number word.now }
{
    match word {
        [] => false,
        [first, ..] => word.len() <= 9 && (word.len() == 1 || *first != b'0'),
    }
}

/// The number that a word is.
fn number(word: &[u8]) -> Option<u32>
    ensures { result ≡ number_in word.now }
{
    if !may_be_number(word) {
        return None;
    }
    let mut number = 0;
    for digit in word {
        if !digit.is_ascii_digit() {
            return None;
        }
        number = 10 * number + u32::from(*digit - b'0');
    }
    Some(number)
}

/// The number that a word is, or none where it is `-`.
#[tactic(auto, unfolding(crate::specs::Reading::place_in))]
fn place(word: &[u8]) -> Option<Option<u32>>
    ensures { result ≡ place_in word.now }
{
    if is_word(word, b"-") {
        return Some(None);
    }
    let number = number(word)?;
    Some(Some(number))
}

#[tactic(auto, unfolding(crate::specs::Reading::single_in))]
fn single(word: &[u8]) -> Option<ReportLine>
    ensures { result ≡ single_in word.now }
{
    is_word(word, b"end").then_some(ReportLine::End)
}

#[tactic(auto, unfolding(crate::specs::Reading::title_in))]
fn title(word: &[u8]) -> Option<ReportLine>
    ensures { result ≡ title_in word.now }
{
    is_word(word, b"1").then_some(ReportLine::Title)
}

#[tactic(auto, unfolding(crate::specs::Reading::verdict_in))]
fn verdict(word: &[u8]) -> Option<ReportLine>
    ensures { result ≡ verdict_in word.now }
{
    if is_word(word, b"optimal") {
        return Some(ReportLine::Optimal);
    }
    if is_word(word, b"infeasible") {
        return Some(ReportLine::Infeasible);
    }
    is_word(word, b"limit").then_some(ReportLine::Limit)
}

#[tactic(auto, unfolding(crate::specs::Reading::log_flag_in))]
fn log_flag(word: &[u8]) -> Option<ReportLine>
    ensures { result ≡ log_flag_in word.now }
{
    if is_word(word, b"yes") {
        return Some(ReportLine::LogYes);
    }
    is_word(word, b"no").then_some(ReportLine::LogNo)
}

/// A line of two words.
#[tactic(auto, unfolding(crate::specs::Reading::pair_in))]
fn pair(key: &[u8], word: &[u8]) -> Option<ReportLine>
    ensures { result ≡ pair_in key.now word.now }
{
    if is_word(key, b"psplib-report") {
        return title(word);
    }
    if is_word(key, b"verdict") {
        return verdict(word);
    }
    if is_word(key, b"duration") {
        let number = place(word)?;
        return Some(ReportLine::Duration(number));
    }
    if is_word(key, b"lower") {
        let number = place(word)?;
        return Some(ReportLine::Lower(number));
    }
    if is_word(key, b"log") {
        return log_flag(word);
    }
    None
}

#[tactic(auto, unfolding(crate::specs::Reading::job_in))]
fn job(job: &[u8], mode: &[u8], start: &[u8]) -> Option<ReportLine>
    ensures { result ≡ job_in job.now mode.now start.now }
{
    let job = number(job)?;
    let mode = number(mode)?;
    let start = number(start)?;
    Some(ReportLine::Job(job, mode, start))
}

fn is_bare(letter: u8) -> bool
    ensures { result ≡ is_bare letter }
{
    letter == EXPANDED || letter == LEAF || letter == TAIL_BOUND
}

fn is_shut(letter: u8) -> bool
    ensures { result ≡ is_shut letter }
{
    letter == CAPACITY || letter == BUDGET || letter == WORSE
}

/// The number behind a letter, 0 where none may stand.
#[tactic(auto, unfolding(crate::specs::Reading::fate_number_in))]
fn fate_number(letter: u8, word: Option<&[u8]>) -> Option<u32>
    ensures { result ≡ fate_number_in letter (option_copied word.entry) }
{
    match word {
        None => is_bare(letter).then_some(0),
        Some(word) => {
            if !has_number(letter) {
                return None;
            }
            number(word)
        }
    }
}

/// A letter and its number.
#[tactic(auto, unfolding(crate::specs::Reading::fate_in))]
fn fate(word: &[u8], number: Option<&[u8]>) -> Option<(u8, u32)>
    ensures { result ≡ fate_in word.now (option_copied number.entry) }
{
    let [letter] = word else {
        return None;
    };
    let number = fate_number(*letter, number)?;
    Some((*letter, number))
}

/// Whether job, mode and start may stand before a letter.
#[tactic(auto, unfolding(crate::specs::Reading::is_place))]
fn is_place(job: Option<u32>, mode: Option<u32>, start: Option<u32>, letter: u8) -> bool
    ensures { result ≡ is_place job mode start letter }
{
    match (job, mode, start) {
        (None, None, None) => true,
        (Some(_), Some(_), None) => is_shut(letter),
        (Some(_), Some(_), Some(_)) => !is_shut(letter),
        _ => false,
    }
}

/// A line of the log.
#[tactic(auto, unfolding(crate::specs::Reading::log_in, crate::specs::Reading::placed_in))]
fn log(
    job: &[u8],
    mode: &[u8],
    start: &[u8],
    letter: &[u8],
    number: Option<&[u8]>,
) -> Option<ReportLine>
    ensures { result ≡ log_in job.now mode.now start.now letter.now (option_copied number.entry) }
{
    let job = place(job)?;
    let mode = place(mode)?;
    let start = place(start)?;
    let (letter, number) = fate(letter, number)?;
    if !is_place(job, mode, start, letter) {
        return None;
    }
    Some(ReportLine::Log(LogWords {
        job,
        mode,
        start,
        letter,
        number,
    }))
}

/// A line of four words.
#[tactic(auto, unfolding(crate::specs::Reading::four_in))]
fn four(first: &[u8], second: &[u8], third: &[u8], fourth: &[u8]) -> Option<ReportLine>
    ensures { result ≡ four_in first.now second.now third.now fourth.now }
{
    if is_word(first, b"job") {
        return job(second, third, fourth);
    }
    log(first, second, third, fourth, None)
}

fn blank_in(bytes: &[u8]) -> Option<usize>
    ensures { result ≡ position (λ byte. byte == 0x20) bytes.now }
{
    bytes.iter().position(|byte| *byte == b' ')
}

/// The first word, and what stands behind the blank after it.
fn split_word(bytes: &[u8]) -> (&[u8], Option<&[u8]>)
    ensures { MatchOption result.1 (words_in bytes.now ≡ result.0.now ∷ []) (λ rest. words_in bytes.now ≡ result.0.now ∷ words_in rest.now) }
{
    match blank_in(bytes) {
        None => (bytes, None),
        Some(end) => (&bytes[..end], Some(&bytes[end + 1..])),
    }
}

/// The line with these bytes, by its words.
#[tactic(auto, unfolding(crate::specs::Reading::line_in))]
pub fn read_line(bytes: &[u8]) -> Option<ReportLine>
    ensures { result ≡ line_in (words_in bytes.now) }
{
    let (first, rest) = split_word(bytes);
    let Some(rest) = rest else {
        return single(first);
    };
    let (second, rest) = split_word(rest);
    let Some(rest) = rest else {
        return pair(first, second);
    };
    let (third, rest) = split_word(rest);
    let (fourth, rest) = split_word(rest?);
    let Some(rest) = rest else {
        return four(first, second, third, fourth);
    };
    let (fifth, rest) = split_word(rest);
    match rest {
        None => log(first, second, third, fourth, Some(fifth)),
        Some(_) => None,
    }
}
