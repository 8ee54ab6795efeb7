ghost use Rattle.std.specs.Prelude.{◌≡◌, Some, IfSome};
ghost use Rattle.proof_log.specs.Line.{IsLine, line_text};

use crate::line::ReportLine;
use crate::reading::read_line;

/// The line of a report that has these bytes, without the LF; `None` where no line has them. It takes no memory.
pub fn parse_line(bytes: &[u8]) -> Option<ReportLine>
    ensures found { IfSome result (λ line. IsLine line × (bytes.now ≡ line_text line)) }
    ensures all { (line : ReportLine) → IsLine line → bytes.now ≡ line_text line → result ≡ Some line }
{
    read_line(bytes)
}
