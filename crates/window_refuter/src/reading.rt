ghost use Rattle.std.specs.Prelude.{◌≡◌, ◌∷◌, [], MatchOption, position, ◌==◌};
ghost use Rattle.std.specs.Str.{bytes_eq};
ghost use Rattle.proof_log.specs.Reading.{words_in};
ghost use Rattle.window_refuter.specs.Reading.{single_in, title_in, empty_in, pair_in, head_in, tail_in, triple_in, disjoint_in, work_in, four_in, line_in};

use crate::line::BoundLine;
use crate::numbers::{byte, number};
use crate::step::BoundStep;

fn is_word(word: &[u8], text: &[u8]) -> bool
    ensures { result ≡ bytes_eq word.now text.now }
{
    word == text
}

#[tactic(auto, unfolding(crate::specs::Reading::single_in))]
fn single(word: &[u8]) -> Option<BoundLine>
    ensures { result ≡ single_in word.now }
{
    is_word(word, b"end").then_some(BoundLine::End)
}

#[tactic(auto, unfolding(crate::specs::Reading::title_in))]
fn title(word: &[u8]) -> Option<BoundLine>
    ensures { result ≡ title_in word.now }
{
    is_word(word, b"1").then_some(BoundLine::Title)
}

#[tactic(auto, unfolding(crate::specs::Reading::empty_in))]
fn empty(job: &[u8]) -> Option<BoundLine>
    ensures { result ≡ empty_in job.now }
{
    let job = byte(job)?;
    Some(BoundLine::Step(BoundStep::Empty(job)))
}

/// A line of two words.
#[tactic(auto, unfolding(crate::specs::Reading::pair_in))]
fn pair(key: &[u8], word: &[u8]) -> Option<BoundLine>
    ensures { result ≡ pair_in key.now word.now }
{
    if is_word(key, b"psplib-bound") {
        return title(word);
    }
    if is_word(key, b"bound") {
        let bound = number(word)?;
        return Some(BoundLine::Bound(bound));
    }
    if is_word(key, b"F") {
        return empty(word);
    }
    None
}

#[tactic(auto, unfolding(crate::specs::Reading::head_in))]
fn head(first: &[u8], second: &[u8]) -> Option<BoundLine>
    ensures { result ≡ head_in first.now second.now }
{
    let first = byte(first)?;
    let second = byte(second)?;
    Some(BoundLine::Step(BoundStep::Head(first, second)))
}

#[tactic(auto, unfolding(crate::specs::Reading::tail_in))]
fn tail(first: &[u8], second: &[u8]) -> Option<BoundLine>
    ensures { result ≡ tail_in first.now second.now }
{
    let first = byte(first)?;
    let second = byte(second)?;
    Some(BoundLine::Step(BoundStep::Tail(first, second)))
}

/// A line of three words.
#[tactic(auto, unfolding(crate::specs::Reading::triple_in))]
fn triple(key: &[u8], first: &[u8], second: &[u8]) -> Option<BoundLine>
    ensures { result ≡ triple_in key.now first.now second.now }
{
    if is_word(key, b"H") {
        return head(first, second);
    }
    if is_word(key, b"Q") {
        return tail(first, second);
    }
    None
}

#[tactic(auto, unfolding(crate::specs::Reading::disjoint_in))]
fn disjoint(first: &[u8], second: &[u8], resource: &[u8]) -> Option<BoundLine>
    ensures { result ≡ disjoint_in first.now second.now resource.now }
{
    let first = byte(first)?;
    let second = byte(second)?;
    let resource = byte(resource)?;
    Some(BoundLine::Step(BoundStep::Disjoint(first, second, resource)))
}

#[tactic(auto, unfolding(crate::specs::Reading::work_in))]
fn work(resource: &[u8], from: &[u8], until: &[u8]) -> Option<BoundLine>
    ensures { result ≡ work_in resource.now from.now until.now }
{
    let resource = byte(resource)?;
    let from = number(from)?;
    let until = number(until)?;
    Some(BoundLine::Step(BoundStep::Work(resource, from, until)))
}

/// A line of four words.
#[tactic(auto, unfolding(crate::specs::Reading::four_in))]
fn four(key: &[u8], first: &[u8], second: &[u8], third: &[u8]) -> Option<BoundLine>
    ensures { result ≡ four_in key.now first.now second.now third.now }
{
    if is_word(key, b"D") {
        return disjoint(first, second, third);
    }
    if is_word(key, b"E") {
        return work(first, second, third);
    }
    None
}

fn blank_in(bytes: &[u8]) -> Option<usize>
    ensures { result ≡ position (λ byte. byte == 0x20) bytes.now }
{
    bytes.iter().position(|byte| *byte == b' ')
}

/// The first word, and what stands behind the blank after it.
fn split_word(bytes: &[u8]) -> (&[u8], Option<&[u8]>)
    ensures { MatchOption result.1 (words_in bytes.now ≡ result.0.now ∷ []) (λ rest. words_in bytes.now ≡ result.0.now ∷ words_in rest.now) }
{
    match blank_in(bytes) {
        None => (bytes, None),
        Some(end) => (&bytes[..end], Some(&bytes[end + 1..])),
    }
}

/// The line with these bytes, by its words.
#[tactic(auto, unfolding(crate::specs::Reading::line_in))]
pub(crate) fn read_line(bytes: &[u8]) -> Option<BoundLine>
    ensures { result ≡ line_in (words_in bytes.now) }
{
    let (first, rest) = split_word(bytes);
    let Some(rest) = rest else {
        return single(first);
    };
    let (second, rest) = split_word(rest);
    let Some(rest) = rest else {
        return pair(first, second);
    };
    let (third, rest) = split_word(rest);
    let Some(rest) = rest else {
        return triple(first, second, third);
    };
    let (fourth, rest) = split_word(rest);
    match rest {
        None => four(first, second, third, fourth),
        Some(_) => None,
    }
}
