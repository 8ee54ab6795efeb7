//! The commands of the program.

/// How a search is to run, and what is to be told of it.
#[derive(Clone, Copy, Debug, PartialEq, Eq)]
pub struct Request {
    /// How many workers search, 1 to 32.
    pub workers: u32,
    /// How many nodes they may expand, at most 100,000.
    pub nodes: u32,
    /// How many tries make the plan that the search begins with, at most 1,000,000; none where it begins with the first plan.
    pub tries: u32,
    /// Whether the log is told.
    pub log: bool,
}

/// What a project is made from.
#[derive(Clone, Copy, Debug, PartialEq, Eq)]
pub struct Recipe {
    /// The number that all of it is drawn from, at most 999,999,999.
    pub seed: u32,
    /// How many jobs it has, 3 to 128.
    pub jobs: u8,
    /// How many modes each job has that takes time, 1 to 4.
    pub modes: u8,
}

/// A command of the program, with its words.
#[derive(Clone, Copy, Debug, PartialEq, Eq)]
pub enum Command<'w> {
    /// Solve the project under this name.
    Solve {
        project: &'w str,
        request: Request,
    },
    /// Judge the report under a name, as one on the project under this name.
    Check {
        project: &'w str,
        report: &'w str,
    },
    /// Print the project under this name.
    Show {
        project: &'w str,
    },
    /// Print the project that is made so.
    Make(Recipe),
    /// Solve the project that is made so, by 1 to 32 workers and at most so many expansions, up to 100,000.
    Trial {
        recipe: Recipe,
        workers: u32,
        nodes: u32,
    },
    /// Print a plan of the project under this name, after so many tries, up to 1,000,000.
    Plan {
        project: &'w str,
        tries: u32,
    },
    /// Print a bound of the project under this name, before which none of its plans can end, with the steps that show it.
    Bound {
        project: &'w str,
    },
    /// Judge the text of a bound under a name, as one of the project under this name.
    Verify {
        project: &'w str,
        bound: &'w str,
    },
}

/// Words that are no command.
#[derive(Clone, Copy, Debug, PartialEq, Eq)]
pub struct BadWords {
    /// The place, from 1, of the first word that can't stand, or one past the last where a word is missing.
    pub place: u32,
}
