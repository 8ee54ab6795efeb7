use plan_words::Request;

/// What is asked of a project.
#[derive(Clone, Copy)]
pub enum Task {
    /// A report on it, by a search that runs so.
    Solve(Request),
    /// A plan of it.
    Plan {
        /// After so many tries, up to 1,000,000.
        tries: u32,
    },
    /// The text of its window bound.
    Bound,
    /// Its canonical text.
    Show,
}
