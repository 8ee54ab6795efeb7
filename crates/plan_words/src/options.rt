//! Options of a command: words that may be left out, and come in any order.

ghost use Rattle.std.specs.Prelude.{◌≡◌, ◌≤◌, ◌+◌, ◌&&◌, ◌∷◌, false, List, ℕ, IfSome, is_some, length, drop, codes, string_bytes};
ghost use Rattle.psplib_lex.specs.Number.{digits_value};
ghost use Rattle.plan_words.specs.Words.{number_form, log_form, gives, gives_some, others, is_yes};
ghost use Rattle.plan_words.specs.Options.{free_forms, AreWithin, ComeTo};

use crate::number::number_behind;

/// An option.
#[derive(Clone, Copy, Debug, PartialEq, Eq)]
pub struct Choice<T> {
    /// Whether a word may give it.
    pub free: bool,
    /// What a word gave, or what stands where none does.
    pub value: T,
}

/// The options that words may give.
#[derive(Clone, Copy, Debug, PartialEq, Eq)]
pub struct Options {
    pub modes: Choice<u32>,
    pub workers: Choice<u32>,
    pub nodes: Choice<u32>,
    pub log: Choice<bool>,
    pub tries: Choice<u32>,
}

/// The option after a word that may give its number.
fn number_chosen(
    choice: Choice<u32>,
    word: &str,
    key: &str,
    least: u32,
    most: u32,
) -> Option<Choice<u32>>
    requires { most ≤ 999999999 }
    ensures stands { is_some result ≡ (choice.free && gives (number_form key.now least most) word.now) }
    ensures taken { IfSome result (λ now. now.free ≡ false) }
    ensures value { IfSome result (λ now. now.value ≡ digits_value (drop (length key.now) word.now)) }
    ensures range { IfSome result (λ now. (least ≤ now.value) × (now.value ≤ most)) }
{
    if !choice.free {
        return None;
    }
    let value = number_behind(word.as_bytes(), key.as_bytes(), least, most)?;
    Some(Choice { free: false, value })
}

/// Whether the log is to be printed, in a word that says it.
#[tactic(auto, unfolding(crate::specs::Words::begins_with))]
fn log_flag(word: &str) -> Option<bool>
    ensures stands { is_some result ≡ gives log_form word.now }
    ensures value { IfSome result (λ now. now ≡ is_yes (drop 4 word.now)) }
{
    let answer = word.as_bytes().strip_prefix(b"log=")?;
    if answer == b"yes".as_slice() {
        Some(true)
    } else if answer == b"no".as_slice() {
        Some(false)
    } else {
        None
    }
}

/// The option after a word that may say whether the log is to be printed.
fn log_chosen(choice: Choice<bool>, word: &str) -> Option<Choice<bool>>
    ensures stands { is_some result ≡ (choice.free && gives log_form word.now) }
    ensures taken { IfSome result (λ now. now.free ≡ false) }
    ensures value { IfSome result (λ now. now.value ≡ is_yes (drop 4 word.now)) }
{
    if !choice.free {
        return None;
    }
    let value = log_flag(word)?;
    Some(Choice { free: false, value })
}

impl Options {
    /// The options after a word that gives one of them.
    pub fn with_word(self, word: &str) -> Option<Options>
        requires { AreWithin self }
        ensures stands { is_some result ≡ gives_some (free_forms self) word.now }
        ensures left { IfSome result (λ now. free_forms now ≡ others (free_forms self) word.now) }
        ensures fewer { IfSome result (λ now. length (free_forms now) + 1 ≤ length (free_forms self)) }
        ensures values { IfSome result (λ now. (words : List (List ℕ)) → ComeTo self now (word.now ∷ words) words) }
        ensures range { IfSome result AreWithin }
    {
        if let Some(modes) = number_chosen(self.modes, word, "modes=", 1, 4) {
            return Some(Options { modes, ..self });
        }
        if let Some(workers) = number_chosen(self.workers, word, "workers=", 1, 32) {
            return Some(Options { workers, ..self });
        }
        if let Some(nodes) = number_chosen(self.nodes, word, "nodes=", 0, 100_000) {
            return Some(Options { nodes, ..self });
        }
        if let Some(log) = log_chosen(self.log, word) {
            return Some(Options { log, ..self });
        }
        match number_chosen(self.tries, word, "tries=", 0, 1_000_000) {
            Some(tries) => Some(Options { tries, ..self }),
            None => None,
        }
    }
}
