ghost use Rattle.search_rounds.specs.Laws.{FormLaw, ReportLaw};

/// What was found is a report that has a text.
pub fn told_report()
    ensures form { FormLaw }
    ensures report { ReportLaw }
{}
