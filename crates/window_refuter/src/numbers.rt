ghost use Rattle.std.specs.Prelude.{◌≡◌};
ghost use Rattle.proof_log.specs.Reading.{may_be_number, number_in};
ghost use Rattle.window_refuter.specs.Reading.{byte_in};

/// Whether the word is from one to nine bytes, of which the first is no 0 before others.
#[tactic(auto, unfolding(proof_log::specs::Reading::may_be_number))]
fn may_be_number(word: &[u8]) -> bool
    ensures { result ≡ may_be_number word.now }
{
    match word {
        [] => false,
        [first, ..] => word.len() <= 9 && (word.len() == 1 || *first != b'0'),
    }
}

/// The number that a word is.
pub(crate) fn number(word: &[u8]) -> Option<u32>
    ensures { result ≡ number_in word.now }
{
    if !may_be_number(word) {
        return None;
    }
    let mut number = 0;
    for digit in word {
        if !digit.is_ascii_digit() {
            return None;
        }
        number = 10 * number + u32::from(*digit - b'0');
    }
    Some(number)
}

/// The number of a job or a resource that a word is.
#[tactic(auto, unfolding(crate::specs::Reading::byte_in))]
pub(crate) fn byte(word: &[u8]) -> Option<u8>
    ensures { result ≡ byte_in word.now }
{
    let number = number(word)?;
    if number <= 255 {
        Some(number as u8)
    } else {
        None
    }
}
