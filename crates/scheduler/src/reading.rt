ghost use Rattle.std.specs.Prelude.{◌≡◌, ◌≤◌, ◌+◌, ◌++◌, [], length, take, IfOk, OnOk, IfSome, IsSome};
ghost use Rattle.sched_base.specs.Outside.{text_under, Rose};
ghost use Rattle.scheduler.specs.declared.stop.Stop.TheVariants.{ReadFault};
ghost use Rattle.std.specs.Prelude.{Err};

use crate::stop::Stop;
use sched_base::Shelf;
use std::alloc::{AllocError, Global};

/// So many bytes of a project are read at most: one more than a project text may have.
pub const MOST_READ: usize = 4_194_305;

/// So many bytes are asked of the shelf at a time.
const PIECE: usize = 65_536;

/// Appends what one read gives to the text, and says how many bytes that were.
fn append_read<S: Shelf>(shelf: &mut S, piece: &mut [u8], text: &mut Vec<u8>) -> Result<usize, Stop>
    requires { 1 ≤ length piece.old }
    ensures bound { IfOk result (λ n. n ≤ length piece.old) }
    ensures grown { IfOk result (λ n. length text.new.items ≡ length text.old.items + n) }
    ensures moved { OnOk result (IsSome (S.texts shelf.old) → text.new.items ++ S.left shelf.new ≡ text.old.items ++ S.left shelf.old) }
    ensures ended { IfOk result (λ n. n ≡ 0 → IsSome (S.texts shelf.old) → S.left shelf.new ≡ []) }
    ensures fault { result ≡ Err ReadFault → Rose (S.faults shelf.old) (S.faults shelf.new) }
    ensures later { S.faults shelf.old ≤ S.faults shelf.new }
    ensures texts { S.texts shelf.new ≡ S.texts shelf.old }
{
    let count = shelf.read(piece)?;
    text.extend_from_slice(&piece[..count])?;
    Ok(count)
}

/// Appends what is left of the text in hand, until the text has `most` bytes or nothing is left.
fn read_on<S: Shelf>(
    shelf: &mut S,
    most: usize,
    piece: &mut [u8],
    text: &mut Vec<u8>,
) -> Result<(), Stop>
    requires piece { 1 ≤ length piece.old }
    requires short { length text.old.items ≤ most }
    ensures whole { OnOk result (IsSome (S.texts shelf.old) → text.new.items ≡ take most (text.old.items ++ S.left shelf.old)) }
    ensures fault { result ≡ Err ReadFault → Rose (S.faults shelf.old) (S.faults shelf.new) }
    ensures later { S.faults shelf.old ≤ S.faults shelf.new }
    ensures texts { S.texts shelf.new ≡ S.texts shelf.old }
{
    while text.len() < most {
        let room = piece.len().min(most - text.len());
        if append_read(shelf, &mut piece[..room], text)? == 0 {
            break;
        }
    }
    Ok(())
}

/// Room for one piece.
pub fn piece_room(alloc: Global) -> Result<Vec<u8>, AllocError>
    ensures { IfOk result (λ piece. length piece.items ≡ PIECE) }
{
    vec![in alloc; 0; PIECE]
}

/// The text under a name, up to its first `MOST_READ` bytes.
pub fn read_text<S: Shelf>(alloc: Global, shelf: &mut S, name: &str) -> Result<Vec<u8>, Stop>
    ensures text { IfOk result (λ text. IfSome (S.texts shelf.old) (λ texts. text.items ≡ take MOST_READ (text_under texts name.now))) }
    ensures fault { result ≡ Err ReadFault → Rose (S.faults shelf.old) (S.faults shelf.new) }
    ensures later { S.faults shelf.old ≤ S.faults shelf.new }
    ensures texts { S.texts shelf.new ≡ S.texts shelf.old }
{
    let mut piece = piece_room(alloc)?;
    let mut text = Vec::new(alloc);
    shelf.begin(name)?;
    read_on(shelf, MOST_READ, &mut piece, &mut text)?;
    Ok(text)
}
