//! Numbers among the words of a command.

ghost use Rattle.std.specs.Prelude.{◌≡◌, ◌≤◌, is_some, IfSome, length, drop};
ghost use Rattle.psplib_lex.specs.Number.{digits_value};
ghost use Rattle.plan_words.specs.Words.{is_within, number_form, gives};

use psplib_lex::number_up_to;

/// A number of a word has so many digits at most.
const MOST_DIGITS: usize = 9;

/// Numbers from here on stand in no word.
const CAP: u32 = 1_000_000_000;

/// The number from `least` to `most` that a word stands for, in one to nine decimal digits.
#[tactic(auto, unfolding(crate::specs::Words::is_within, psplib_lex::specs::Number::word_value))]
pub fn number_within(word: &[u8], least: u32, most: u32) -> Option<u32>
    requires { most ≤ 999999999 }
    ensures stands { is_some result ≡ is_within least most word.now }
    ensures value { IfSome result (λ n. n ≡ digits_value word.now) }
    ensures range { IfSome result (λ n. (least ≤ n) × (n ≤ most)) }
{
    if word.len() > MOST_DIGITS {
        return None;
    }
    let value = number_up_to(word, CAP)?;
    if least <= value && value <= most {
        Some(value)
    } else {
        None
    }
}

/// The number from `least` to `most` that stands behind the key in a word.
#[tactic(auto, unfolding(crate::specs::Words::begins_with))]
pub fn number_behind(word: &[u8], key: &[u8], least: u32, most: u32) -> Option<u32>
    requires { most ≤ 999999999 }
    ensures stands { is_some result ≡ gives (number_form key.now least most) word.now }
    ensures value { IfSome result (λ n. n ≡ digits_value (drop (length key.now) word.now)) }
    ensures range { IfSome result (λ n. (least ≤ n) × (n ≤ most)) }
{
    let digits = word.strip_prefix(key)?;
    number_within(digits, least, most)
}
