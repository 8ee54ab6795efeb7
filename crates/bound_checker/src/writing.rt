ghost use Rattle.std.specs.Prelude.{◌≡◌, ◌∷◌, ◌++◌, [], IfOk, OnOk};
ghost use Rattle.window_refuter.specs.Text.{line_text};
ghost use Rattle.bound_checker.specs.Text.{text_of, bound_lines};

use sched_base::NoMemory;
use std::alloc::Global;
use window_refuter::{BoundLine, WindowBound, bound_line};

/// Appends a line and its LF.
fn push_line(text: &mut Vec<u8>, line: BoundLine) -> Result<(), NoMemory>
    ensures { OnOk result (text.new.items ≡ text.old.items ++ (line_text line ++ 0x0A ∷ [])) }
{
    text.extend_from_slice(bound_line(line).as_slice())?;
    Ok(())
}

/// The text of a bound: its title, the bound, a line for each step, and `end`.
///
/// # Errors
///
/// [`NoMemory`] where memory was refused.
pub fn bound_text(alloc: Global, found: &WindowBound) -> Result<Vec<u8>, NoMemory>
    ensures { IfOk result (λ text. text.items ≡ text_of (bound_lines found.now.bound found.now.steps)) }
{
    let mut text = Vec::new(alloc);
    push_line(&mut text, BoundLine::Title)?;
    push_line(&mut text, BoundLine::Bound(found.bound))?;
    for step in found.steps.as_slice() {
        push_line(&mut text, BoundLine::Step(*step))?;
    }
    push_line(&mut text, BoundLine::End)?;
    Ok(text)
}
