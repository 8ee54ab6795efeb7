ghost use Rattle.std.specs.Prelude.{◌≡◌, Some, IfSome};
ghost use Rattle.window_refuter.specs.Text.{IsLine, line_text};

use crate::line::BoundLine;
use crate::reading::read_line;

/// The line of the text of a bound that has these bytes, without the LF; `None` where no line has them. It takes no memory.
pub fn parse_bound_line(bytes: &[u8]) -> Option<BoundLine>
    ensures found { IfSome result (λ line. IsLine line × (bytes.now ≡ line_text line)) }
    ensures all { (line : BoundLine) → IsLine line → bytes.now ≡ line_text line → result ≡ Some line }
{
    read_line(bytes)
}
