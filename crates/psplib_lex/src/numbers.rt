//! Words that are numbers.

ghost use Rattle.std.specs.Prelude.{◌≡◌, ◌+◌, ◌-◌, ◌*◌, ◌≤◌, min};
ghost use Rattle.std.specs.Option.{option_map};
ghost use Rattle.std.specs.List.{list_all};
ghost use Rattle.psplib_lex.specs.Number.{is_digit, is_number, digits_value, word_value};

fn is_digit(byte: u8) -> bool
    ensures { result ≡ is_digit byte }
{
    b'0' <= byte && byte <= b'9'
}

fn are_digits(bytes: &[u8]) -> bool
    ensures { result ≡ list_all is_digit bytes.now }
{
    bytes.iter().all(|byte| is_digit(*byte))
}

fn is_number(word: &[u8]) -> bool
    ensures { result ≡ is_number word.now }
{
    !word.is_empty() && are_digits(word)
}

/// The number with a digit behind it, or the cap where that is less.
fn with_digit(value: u32, digit: u8, cap: u32) -> u32
    requires { value ≤ cap }
    ensures { result ≡ min (10 * value + (digit - 0x30)) cap }
{
    let more = 10 * u64::from(value) + u64::from(digit.saturating_sub(b'0'));
    if more < u64::from(cap) {
        more as u32
    } else {
        cap
    }
}

/// The number that digits stand for, or the cap where that is less.
fn capped_value(digits: &[u8], cap: u32) -> u32
    ensures { result ≡ min (digits_value digits.now) cap }
{
    let mut value = 0;
    for digit in digits {
        value = with_digit(value, *digit, cap);
    }
    value
}

/// The number that a word stands for, or the cap where that is less; none where the word is no number.
///
/// A number is one or more decimal digits, of whatever length.
#[tactic(auto, unfolding(crate::specs::Number::word_value))]
pub fn number_up_to(word: &[u8], cap: u32) -> Option<u32>
    ensures { result ≡ option_map (λ n. min n cap) (word_value word.now) }
{
    if is_number(word) {
        Some(capped_value(word, cap))
    } else {
        None
    }
}
