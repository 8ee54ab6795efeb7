//! Laws of a report's refusal.

ghost use Rattle.log_checker.specs.Laws.{StaysLaw, HoldsLaw, ClaimLaw, OneOutcomeLaw, TextLaw, AcceptsLaw, EitherLaw, ExactLaw};

/// What was refused stays refused, whatever comes after it.
pub fn stays_refused()
    ensures { StaysLaw }
{}

/// Where a text is accepted, a report of its verdict holds, and what the verdict claims is true.
pub fn true_verdict()
    ensures holds { HoldsLaw }
    ensures claim { ClaimLaw }
{}

/// A text has one outcome at most: it is accepted as one verdict, or refused for one reason at one line.
pub fn one_outcome()
    ensures { OneOutcomeLaw }
{}

/// A text that is accepted is that of a report that holds, and each such text is accepted.
pub fn accepted_text()
    ensures text { TextLaw }
    ensures accepts { AcceptsLaw }
{}

/// A text is accepted or refused, and nothing is broken first exactly where it is the text of a report that holds.
pub fn exact_refusal()
    ensures either { EitherLaw }
    ensures exact { ExactLaw }
{}
