//! A whole line: whether it may stand behind the lines before it.

ghost use Rattle.std.specs.Prelude.{◌≡◌, length};
ghost use Rattle.rcpsp_model.specs.Project.{Project as Model, job_count};
ghost use Rattle.window_refuter.specs.declared.line.BoundLine.TheVariants.{Bound, Step};
ghost use Rattle.window_refuter.specs.Windows.{TimeWindows};
ghost use Rattle.bound_checker.specs.Stages.{IsNext, IsNextText};

use crate::stage::Stage;
use project_net::Project;
use window_refuter::{BoundLine, BoundStep, Judged, Windows, parse_bound_line};

/// The greatest bound that a text may have: one more than the greatest end.
const GREATEST_BOUND: u32 = 1_290_001;

/// The stage behind the title.
fn after_title(line: BoundLine) -> Option<Stage>
    ensures { (P : Model) (W : TimeWindows) → IsNext P Stage.Title W line result W }
{
    match line {
        BoundLine::Title => Some(Stage::Bound),
        _ => None,
    }
}

/// The stage behind the line of a bound: where it is above 0, all windows are to end before it.
fn after_bound(project: &Project, windows: &mut Windows, bound: u32) -> Option<Stage>
    requires size { length windows.old.windows ≡ job_count project.now }
    ensures next { IsNext project.now Stage.Bound windows.old (Bound bound) result windows.new }
    ensures size { length windows.new.windows ≡ job_count project.now }
{
    if bound > GREATEST_BOUND {
        return None;
    }
    if bound == 0 {
        return Some(Stage::End(0));
    }
    *windows = Windows::new(project, bound - 1);
    Some(Stage::Step)
}

/// The stage behind a step: the windows are narrowed, or have shown the bound.
fn after_step(project: &Project, windows: &mut Windows, step: BoundStep) -> Option<Stage>
    requires size { length windows.old.windows ≡ job_count project.now }
    ensures next { IsNext project.now Stage.Step windows.old (Step step) result windows.new }
    ensures size { length windows.new.windows ≡ job_count project.now }
{
    let judged = windows.take(project, step);
    windows.known();
    match judged {
        Judged::NotAllowed => None,
        Judged::Further => Some(Stage::Step),
        Judged::Contradiction => Some(Stage::End(windows.end() + 1)),
    }
}

/// The stage behind the last line.
fn after_end(bound: u32, line: BoundLine) -> Option<Stage>
    ensures { (P : Model) (W : TimeWindows) → IsNext P (Stage.End bound) W line result W }
{
    match line {
        BoundLine::End => Some(Stage::Ended(bound)),
        _ => None,
    }
}

/// The stage behind a line, where it may stand there.
fn after_line(
    project: &Project,
    stage: Stage,
    windows: &mut Windows,
    line: BoundLine,
) -> Option<Stage>
    requires size { length windows.old.windows ≡ job_count project.now }
    ensures next { IsNext project.now stage windows.old line result windows.new }
    ensures size { length windows.new.windows ≡ job_count project.now }
{
    match stage {
        Stage::Title => after_title(line),
        Stage::Bound => match line {
            BoundLine::Bound(bound) => after_bound(project, windows, bound),
            _ => None,
        },
        Stage::Step => match line {
            BoundLine::Step(step) => after_step(project, windows, step),
            _ => None,
        },
        Stage::End(bound) => after_end(bound, line),
        Stage::Ended(_) => None,
    }
}

/// The stage behind a line of these bytes, without the LF, where it may stand there.
pub fn judge_line(
    project: &Project,
    stage: Stage,
    windows: &mut Windows,
    bytes: &[u8],
) -> Option<Stage>
    requires size { length windows.old.windows ≡ job_count project.now }
    ensures next { IsNextText project.now stage windows.old bytes.now result windows.new }
    ensures size { length windows.new.windows ≡ job_count project.now }
{
    project.known();
    match parse_bound_line(bytes) {
        Some(line) => after_line(project, stage, windows, line),
        None => None,
    }
}
