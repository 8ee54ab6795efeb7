ghost use Rattle.std.specs.Prelude.{◌≡◌, ◌<◌, length, map, min, take, is_some, string_bytes, IfSome};
ghost use Rattle.sched_base.specs.Outside.{text_under};
ghost use Rattle.sched_base.specs.Memory.{has_text};
ghost use Rattle.sched_base.specs.InHand.{text_at};

/// A text in hand, and how many bytes of it are left.
#[derive(Clone, Copy, Debug, PartialEq, Eq)]
pub(crate) struct InHand {
    pub(crate) text: usize,
    pub(crate) left: usize,
}

/// The place of the first text of a name.
pub(crate) fn place_of(texts: &[(String, Vec<u8>)], name: &str) -> Option<usize>
    ensures found { IfSome result (λ i. i < length texts.now) }
    ensures text { IfSome result (λ i. text_at (map (λ t. (string_bytes t.0, t.1.items)) texts.now) i ≡ text_under (map (λ t. (string_bytes t.0, t.1.items)) texts.now) name.now) }
    ensures has { is_some result ≡ has_text (map (λ t. (string_bytes t.0, t.1.items)) texts.now) name.now }
{
    for place in 0..texts.len() {
        if texts[place].0.as_str() == name {
            return Some(place);
        }
    }
    None
}

/// Fills the front of the piece with the first bytes of what is left, at most `step`, and says how many.
pub(crate) fn give(left: &[u8], step: usize, piece: &mut [u8]) -> usize
    ensures count { result ≡ min (length piece.new) (min step (length left.now)) }
    ensures given { take result piece.new ≡ take result left.now }
{
    let count = piece.len().min(step).min(left.len());
    piece[..count].copy_from_slice(&left[..count]);
    count
}
