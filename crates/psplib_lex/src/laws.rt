//! What the definitions of lines and words imply, apart from any code.

ghost use Rattle.std.specs.Prelude.{◌≡◌, ◌≤◌, ℕ, List, not, length, filter, All};
ghost use Rattle.psplib_lex.specs.Line.{is_blank, line_from, lines_of, squeezed};

/// Each kept line has a word.
pub fn kept_lines_have_words()
    ensures { (text : List ℕ) → All (λ line. 1 ≤ length line.words) (lines_of text) }
{}

/// The squeezed line is the line without its blanks.
pub fn squeezed_lines_have_no_blanks()
    ensures { (number : ℕ) (bytes : List ℕ)
        → squeezed (line_from number bytes) ≡ filter (λ byte. not (is_blank byte)) bytes }
{}
