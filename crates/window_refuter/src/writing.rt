ghost use Rattle.std.specs.Prelude.{◌≡◌, ◌+◌, ◌≤◌, ◌∷◌, [], ◌++◌, length, decimal};
ghost use Rattle.std.specs.List.{join_with_byte};
ghost use Rattle.arrayvec.specs.ArrayVec.{array_vec_len};
ghost use Rattle.window_refuter.specs.Text.{step_words, line_text};

use crate::line::BoundLine;
use crate::step::BoundStep;
use arrayvec::ArrayVec;
use itoa::Buffer;

/// A line and its LF, on the stack.
pub type BoundText = ArrayVec<u8, 65>;

fn push_bytes(text: &mut BoundText, bytes: &[u8])
    requires { array_vec_len text.old + length bytes.now ≤ 65 }
    ensures { text.new.items ≡ text.old.items ++ bytes.now }
{
    let _ = text.try_extend_from_slice(bytes);
}

/// Appends a blank and a number.
fn push_number(text: &mut BoundText, number: u32)
    requires { array_vec_len text.old ≤ 54 }
    ensures items { text.new.items ≡ text.old.items ++ 0x20 ∷ decimal number }
    ensures room { array_vec_len text.new ≤ array_vec_len text.old + 11 }
{
    let mut buffer = Buffer::new();
    text.push(b' ');
    push_bytes(text, buffer.format(number).as_bytes());
}

/// Appends a word and a number.
fn push_pair(text: &mut BoundText, word: &[u8], number: u32)
    requires empty { array_vec_len text.old ≡ 0 }
    requires short { length word.now ≤ 20 }
    ensures items { text.new.items ≡ join_with_byte 0x20 (word.now ∷ decimal number ∷ []) }
    ensures room { array_vec_len text.new ≤ 31 }
{
    push_bytes(text, word);
    push_number(text, number);
}

/// Appends a letter and two numbers.
fn push_triple(text: &mut BoundText, letter: &[u8], first: u8, second: u8)
    requires empty { array_vec_len text.old ≡ 0 }
    requires short { length letter.now ≤ 1 }
    ensures items { text.new.items ≡ join_with_byte 0x20 (letter.now ∷ decimal first ∷ decimal second ∷ []) }
    ensures room { array_vec_len text.new ≤ 42 }
{
    push_pair(text, letter, u32::from(first));
    push_number(text, u32::from(second));
}

/// Appends a letter and three numbers.
fn push_four(text: &mut BoundText, letter: &[u8], first: u8, second: u32, third: u32)
    requires empty { array_vec_len text.old ≡ 0 }
    requires short { length letter.now ≤ 1 }
    ensures items { text.new.items ≡ join_with_byte 0x20 (letter.now ∷ decimal first ∷ decimal second ∷ decimal third ∷ []) }
    ensures room { array_vec_len text.new ≤ 53 }
{
    push_pair(text, letter, u32::from(first));
    push_number(text, second);
    push_number(text, third);
}

#[tactic(auto, unfolding(crate::specs::Text::step_words))]
fn push_step(text: &mut BoundText, step: BoundStep)
    requires { array_vec_len text.old ≡ 0 }
    ensures items { text.new.items ≡ join_with_byte 0x20 (step_words step) }
    ensures room { array_vec_len text.new ≤ 53 }
{
    match step {
        BoundStep::Head(first, second) => push_triple(text, b"H", first, second),
        BoundStep::Tail(first, second) => push_triple(text, b"Q", first, second),
        BoundStep::Disjoint(first, second, resource) => {
            push_four(text, b"D", first, u32::from(second), u32::from(resource))
        }
        BoundStep::Work(resource, from, until) => push_four(text, b"E", resource, from, until),
        BoundStep::Empty(job) => push_pair(text, b"F", u32::from(job)),
    }
}

#[tactic(auto, unfolding(crate::specs::Text::line_text, crate::specs::Text::line_words))]
fn push_line(text: &mut BoundText, line: BoundLine)
    requires { array_vec_len text.old ≡ 0 }
    ensures items { text.new.items ≡ line_text line }
    ensures room { array_vec_len text.new ≤ 64 }
{
    match line {
        BoundLine::Title => push_bytes(text, b"psplib-bound 1"),
        BoundLine::Bound(bound) => push_pair(text, b"bound", bound),
        BoundLine::Step(step) => push_step(text, step),
        BoundLine::End => push_bytes(text, b"end"),
    }
}

/// The bytes of a line of the text of a bound, and its LF. It takes no memory.
pub fn bound_line(line: BoundLine) -> BoundText
    ensures { result.items ≡ line_text line ++ 0x0A ∷ [] }
{
    let mut text = ArrayVec::new();
    push_line(&mut text, line);
    text.push(b'\n');
    text
}
