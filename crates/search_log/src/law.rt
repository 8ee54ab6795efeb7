ghost use Rattle.search_log.specs.Laws.{StartLaw, GapLaw, ChildRowsLaw, ChildPlacesLaw, GrowLaw, GatherLaw, FillsLaw, StaysLaw, ComesLaw, FromLaw, FilledCitesLaw, CloseLaw, WholeLaw, RoomLaw, OneFrontLaw, ParentLaw, CountLaw, LogLaw, ReportLaw, LeanLaw};

/// A table begins with the row of the root, and stands for nodes of the tree as rows and fills come.
pub fn growing()
    ensures start { StartLaw }
    ensures gap { GapLaw }
    ensures child { ChildRowsLaw }
    ensures children { ChildPlacesLaw }
    ensures grow { GrowLaw }
    ensures gathered { GatherLaw }
{}

/// Rows are filled, and what is left at the end is closed by one more list of fills. Nothing else changes.
pub fn filled()
    ensures all { FillsLaw }
    ensures stays { StaysLaw }
    ensures comes { ComesLaw }
    ensures from { FromLaw }
    ensures cited { FilledCitesLaw }
    ensures closed { CloseLaw }
{}

/// Where nothing waits, the table is whole. It has a row for the root and at most 512 for each row that was expanded; no
/// two rows have one front, and a row whose branch comes of the front of another is its child.
pub fn whole()
    ensures account { WholeLaw }
    ensures room { RoomLaw }
    ensures front { OneFrontLaw }
    ensures parent { ParentLaw }
{}

/// The log that is told of a table in which nothing waits holds, and so does the report with it.
pub fn told_log()
    ensures count { CountLaw }
    ensures log { LogLaw }
    ensures report { ReportLaw }
{}

/// The log is lean where the rows are.
pub fn lean()
    ensures { LeanLaw }
{}
