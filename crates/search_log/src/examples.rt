ghost use Rattle.search_log.specs.Examples.{WorkedTables};

/// Tables whose rows came in another order than the lines of their logs.
pub fn worked_tables()
    ensures { WorkedTables }
{}
