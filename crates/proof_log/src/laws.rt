//! What the definitions of a report's text imply, apart from any code.

ghost use Rattle.proof_log.specs.Laws.{OneReportLaw};

/// No two reports have the same text.
pub fn one_report()
    ensures { OneReportLaw }
{}
