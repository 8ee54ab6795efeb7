//! Laws of the text of a bound.

ghost use Rattle.bound_checker.specs.Laws.{StaysLaw, BrokenLaw, FewBytesLaw, RefusedLaw, OneOutcomeLaw, TextLaw, SoundLaw};

/// A line that may not stand there stays the first such line, whatever comes after it.
pub fn stays_refused()
    ensures stays { StaysLaw }
    ensures refused { BrokenLaw }
{}

/// Of the bytes for which a checker stands: they are few where it refused no line, and what it refused stays refused.
pub fn fed_bytes()
    ensures few { FewBytesLaw }
    ensures refused { RefusedLaw }
{}

/// A text has one outcome at most: it is accepted as that of one bound, or refused at one line.
pub fn one_outcome()
    ensures { OneOutcomeLaw }
{}

/// The text of a bound that its steps show is accepted, and where a text is accepted, no feasible schedule ends before its bound.
pub fn accepted_bound()
    ensures text { TextLaw }
    ensures sound { SoundLaw }
{}
