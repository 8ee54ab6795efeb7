//! What the definitions of the layout imply, apart from any code.

ghost use Rattle.std.specs.Prelude.{◌≡◌, ◌↔◌, ◌≤◌, ℕ, List, length, Ok, Err};
ghost use Rattle.psplib_lex.specs.Line.{Line, lines_of};
ghost use Rattle.rcpsp_model.specs.declared.parts.CalRow.{CalRow};
ghost use Rattle.rcpsp_model.specs.declared.parts.Mode.{Mode};
ghost use Rattle.rcpsp_model.specs.Project.{Project, IsWithinLimits};
ghost use Rattle.psplib_layout.specs.declared.fault.Refusal.{Refusal};
ghost use Rattle.psplib_layout.specs.Reading.{read_wanted};
ghost use Rattle.psplib_layout.specs.FirstFault.{FirstFault};
ghost use Rattle.psplib_layout.specs.Part.{HaveWords};
ghost use Rattle.psplib_layout.specs.Header.{Header, ReadsHeader, header_in};
ghost use Rattle.psplib_layout.specs.Precedence.{JobRow, all_rows};
ghost use Rattle.psplib_layout.specs.Requests.{all_modes};
ghost use Rattle.psplib_layout.specs.Availabilities.{Amounts, all_amounts};
ghost use Rattle.psplib_layout.specs.Calendar.{whole_calendar};
ghost use Rattle.psplib_layout.specs.Layout.{Content, ReadsPrecedence, ReadsRequests, ReadsAvailabilities, ReadsCalendar, ReadsLayout, IsWithinContentLimits, project_of, precedence_in, requests_in, availabilities_in, calendar_in, layout_in};
ghost use Rattle.psplib_layout.specs.Text.{HasContent, Reads, content_in, row_line, job_line_in};

/// The header is read exactly where the lines have one.
pub fn header_is_read()
    ensures { (end : ℕ) (lines rest : List Line) (header : Header)
        → (header_in end lines ≡ Ok (header, rest)) ↔ ReadsHeader lines header rest }
{}

/// The precedence part is read exactly where the lines have one.
pub fn precedence_is_read()
    ensures { (end : ℕ) (header : Header) (lines rest : List Line) (rows : List JobRow)
        → 1 ≤ header.jobs → HaveWords lines
        → (precedence_in end header lines ≡ Ok (rows, rest)) ↔ ReadsPrecedence header lines rows rest }
{}

/// The requests part is read exactly where the lines have one.
pub fn requests_are_read()
    ensures { (end : ℕ) (header : Header) (rows : List JobRow) (lines rest : List Line) (modes : List (List Mode))
        → 1 ≤ length rows → HaveWords lines
        → (requests_in end header rows lines ≡ Ok (modes, rest)) ↔ ReadsRequests header rows lines modes rest }
{}

/// The availabilities part is read exactly where the lines have one.
pub fn availabilities_are_read()
    ensures { (end : ℕ) (header : Header) (lines rest : List Line) (amounts : Amounts)
        → HaveWords lines
        → (availabilities_in end header lines ≡ Ok (amounts, rest)) ↔ ReadsAvailabilities header lines amounts rest }
{}

/// The calendar part is read exactly where the lines are one, or where there are none.
pub fn calendar_is_read()
    ensures { (end : ℕ) (capacities : List ℕ) (lines : List Line) (rows : List CalRow)
        → HaveWords lines
        → (calendar_in end capacities lines ≡ Ok rows) ↔ ReadsCalendar capacities lines rows }
{}

/// The whole layout is read exactly where the lines have it.
pub fn layout_is_read()
    ensures { (end : ℕ) (lines : List Line) (content : Content)
        → HaveWords lines
        → (layout_in end lines ≡ Ok content) ↔ ReadsLayout lines content }
{}

/// The content of a text is read exactly where the text has it.
pub fn content_is_read()
    ensures { (text : List ℕ) (content : Content)
        → (content_in text ≡ Ok content) ↔ HasContent text content }
{}

/// A text is one project at most.
pub fn a_text_is_one_project()
    ensures { (text : List ℕ) (P Q : Project) → Reads text P → Reads text Q → P ≡ Q }
{}

/// The numbers of a part are refused with their first fault: the words before it are as wanted, and it breaks the rule
/// under which it stands.
pub fn first_fault_is_refused()
    ensures rows { (end jobs : ℕ) (lines : List Line) (f : Refusal)
        → (read_wanted end (all_rows jobs) lines ≡ Err f) ↔ FirstFault end (all_rows jobs) lines f }
    ensures modes { (end R N job : ℕ) (counts : List ℕ) (lines : List Line) (f : Refusal)
        → (read_wanted end (all_modes R N job counts) lines ≡ Err f) ↔ FirstFault end (all_modes R N job counts) lines f }
    ensures amounts { (end R N : ℕ) (lines : List Line) (f : Refusal)
        → (read_wanted end (all_amounts R N) lines ≡ Err f) ↔ FirstFault end (all_amounts R N) lines f }
    ensures calendar { (end : ℕ) (capacities : List ℕ) (lines : List Line) (f : Refusal)
        → (read_wanted end (whole_calendar capacities) lines ≡ Err f) ↔ FirstFault end (whole_calendar capacities) lines f }
{}

/// In a text that has a content each job's number stands on a line.
pub fn job_lines_are_read()
    ensures { (end : ℕ) (text : List ℕ) (content : Content) (job : ℕ) (h : HasContent text content)
        → job_line_in end (lines_of text) content.rows job ≡ Ok (row_line h.layout.precedence.behind content.rows job) }
{}

/// A content is within the limits of its numbers, and the project that it describes is within the limits of projects.
pub fn contents_are_within_limits()
    ensures content { (text : List ℕ) (content : Content) → HasContent text content → IsWithinContentLimits content }
    ensures project { (content : Content) → IsWithinContentLimits content → IsWithinLimits (project_of content) }
{}
