/// Where the next word is looked for: from this word of this kept line on, both from 0.
#[derive(Clone, Copy, Debug, PartialEq, Eq)]
pub struct Place {
    /// The kept line.
    pub line: usize,
    /// How many of its words are taken.
    pub word: usize,
}

impl Place {
    /// Where a text begins.
    pub const BEGIN: Place = Place { line: 0, word: 0 };
}
