ghost use Rattle.std.specs.Prelude.{◌≡◌, min};
ghost use Rattle.std.specs.Option.{option_map};
ghost use Rattle.psplib_lex.specs.Number.{word_value};

use psplib_lex::number_up_to;

/// Numbers from here on are out of every limit.
pub const CAP: u32 = 100_000_000;

/// The number that a word stands for, or [`CAP`] where that is less; none where the word is no number.
pub fn number(word: &[u8]) -> Option<u32>
    ensures { result ≡ option_map (λ n. min n CAP) (word_value word.now) }
{
    number_up_to(word, CAP)
}
