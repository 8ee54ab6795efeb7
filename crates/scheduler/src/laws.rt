//! What two runs have to do with each other.

ghost use Rattle.scheduler.specs.Laws.{OwnReportLaw, SameTrialLaw};

/// A report that `solve` prints with its log is accepted by `check`, unless a read or a write fails or memory is refused.
pub fn own_report_accepted()
    ensures { OwnReportLaw }
{}

/// Two runs of `trial` on words that differ in `workers=` and `nodes=` alone write the same bytes wherever neither verdict is
/// limit.
pub fn same_trial()
    ensures { SameTrialLaw }
{}
