//! A text that is judged as it is read.

ghost use Rattle.std.specs.Prelude.{◌≡◌, ◌≤◌, ℕ, List as Items, [], ◌++◌, false, Err, IfOk, OnOk, length};
ghost use Rattle.sched_base.specs.Outside.{Rose};
ghost use Rattle.rcpsp_model.specs.Project.{Project as ProjectValue, IsProject};
ghost use Rattle.log_checker.specs.Checker.{StandsFor as StandsForReport};
ghost use Rattle.bound_checker.specs.Checker.{StandsFor as StandsForBound};
ghost use Rattle.scheduler.specs.declared.stop.Stop.TheVariants.{ReadFault};
ghost use Rattle.scheduler.specs.Feeding.{HasAll, HasText, IsTaken};

use crate::reading::piece_room;
use crate::stop::Stop;
use bound_checker::{BoundChecker, MOST_TEXT, fed_bytes};
use log_checker::Checker;
use sched_base::Shelf;
use std::alloc::Global;

/// No text that is judged to its end has so many bytes. That of a bound may be the longest; a report has at most 51,200,136 lines of
/// 65 bytes each, and then 64 bytes of a line without an end.
const MOST_JUDGED: usize = MOST_TEXT + 1;

/// A judge of a text about a project, which comes in pieces.
pub trait Judge {
    /// The project.
    ghost about: { Self → ProjectValue };

    /// The judge stands for these bytes, however they came.
    ghost stands: { Self → Items ℕ → Type 0 };

    /// So many bytes it refused, and what was refused stays refused; it does nothing.
    fn known(&self)
        requires { IsProject (about self.now) }
        ensures { (bytes more : Items ℕ) → MOST_JUDGED ≤ length bytes → stands self.now bytes → stands self.now (bytes ++ more) };

    /// Takes the next piece, and says whether more is wanted.
    fn take(&mut self, piece: &[u8]) -> bool
        requires { IsProject (about self.old) }
        ensures about { about self.new ≡ about self.old }
        ensures stands { (bytes : Items ℕ) → stands self.old bytes → stands self.new (bytes ++ piece.now) }
        ensures enough { result ≡ false → (bytes more : Items ℕ) → stands self.new bytes → stands self.new (bytes ++ more) };
}

impl Judge for Checker<'_> {
    ghost about = { λ checker. checker.project };

    ghost stands = { StandsForReport };

    fn known(&self) {}

    fn take(&mut self, piece: &[u8]) -> bool {
        self.feed(piece).is_ok()
    }
}

impl Judge for BoundChecker<'_> {
    ghost about = { λ checker. checker.project };

    ghost stands = { StandsForBound };

    fn known(&self) {
        fed_bytes();
    }

    fn take(&mut self, piece: &[u8]) -> bool {
        fed_bytes();
        self.feed(piece).is_ok()
    }
}

/// Feeds the judge what one read gives, and says how many bytes that were: none where nothing is left, or nothing more is wanted.
fn feed_read<S: Shelf, J: Judge>(
    shelf: &mut S,
    piece: &mut [u8],
    judge: &mut J,
) -> Result<usize, Stop>
    requires piece { 1 ≤ length piece.old }
    requires project { IsProject (J.about judge.old) }
    ensures about { J.about judge.new ≡ J.about judge.old }
    ensures bound { IfOk result (λ n. n ≤ length piece.old) }
    ensures taken { IfOk result (IsTaken (S.texts shelf.old) (J.stands judge.old) (J.stands judge.new) (S.left shelf.old) (S.left shelf.new)) }
    ensures fault { result ≡ Err ReadFault → Rose (S.faults shelf.old) (S.faults shelf.new) }
    ensures later { S.faults shelf.old ≤ S.faults shelf.new }
    ensures texts { S.texts shelf.new ≡ S.texts shelf.old }
{
    let count = shelf.read(piece)?;
    if judge.take(&piece[..count]) {
        Ok(count)
    } else {
        Ok(0)
    }
}

/// Feeds the judge what is left of the text in hand, until it wants no more.
fn feed_on<S: Shelf, J: Judge>(shelf: &mut S, piece: &mut [u8], judge: &mut J) -> Result<(), Stop>
    requires piece { 1 ≤ length piece.old }
    requires room { length piece.old ≤ 65536 }
    requires project { IsProject (J.about judge.old) }
    requires begun { J.stands judge.old [] }
    ensures about { J.about judge.new ≡ J.about judge.old }
    ensures all { OnOk result (HasAll (S.texts shelf.old) (J.stands judge.new) (S.left shelf.old)) }
    ensures fault { result ≡ Err ReadFault → Rose (S.faults shelf.old) (S.faults shelf.new) }
    ensures later { S.faults shelf.old ≤ S.faults shelf.new }
    ensures texts { S.texts shelf.new ≡ S.texts shelf.old }
{
    let mut taken = 0;
    while taken < MOST_JUDGED {
        let count = feed_read(shelf, piece, judge)?;
        if count == 0 {
            return Ok(());
        }
        taken += count;
    }
    judge.known();
    Ok(())
}

/// Feeds the judge the text under a name, until it wants no more.
pub fn feed_text<S: Shelf, J: Judge>(
    alloc: Global,
    shelf: &mut S,
    name: &str,
    judge: &mut J,
) -> Result<(), Stop>
    requires project { IsProject (J.about judge.old) }
    requires begun { J.stands judge.old [] }
    ensures about { J.about judge.new ≡ J.about judge.old }
    ensures text { OnOk result (HasText (S.texts shelf.old) (J.stands judge.new) name.now) }
    ensures fault { result ≡ Err ReadFault → Rose (S.faults shelf.old) (S.faults shelf.new) }
    ensures later { S.faults shelf.old ≤ S.faults shelf.new }
    ensures texts { S.texts shelf.new ≡ S.texts shelf.old }
{
    let mut piece = piece_room(alloc)?;
    shelf.begin(name)?;
    feed_on(shelf, &mut piece, judge)
}
