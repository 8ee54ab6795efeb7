// The verdict by what was left.
ghost use Rattle.std.specs.Prelude.{◌≡◌, Option};
ghost use Rattle.search_log.specs.Told.{IsLeastLeft, lesser_of, verdict_of};

use crate::blocks::Blocks;
use crate::row::{Row, RowFate};
use crate::table::row_of;
use rcpsp_model::Verdict;

// The lesser of two numbers, of which the first may be missing.
fn lesser(least: Option<u32>, bound: u32) -> u32
    ensures { result ≡ lesser_of least bound }
{
    match least {
        Some(other) if other <= bound => other,
        _ => bound,
    }
}

/// The least number of a row that was left, in periods, or none where none was.
pub fn least_left(rows: &Blocks<Row>) -> Option<u32>
    ensures { IsLeastLeft rows.now result }
{
    let mut least = None;
    for place in 0..rows.len() {
        match row_of(rows, place).fate {
            RowFate::Left(bound) => least = Some(lesser(least, bound)),
            _ => (),
        }
    }
    least
}

/// The verdict by the least end, if there is one, and the least number of what was left.
pub fn verdict(best: Option<u32>, lower: Option<u32>) -> Verdict
    ensures { result ≡ verdict_of best lower }
{
    match (best, lower) {
        (duration, Some(lower)) => Verdict::Limit { duration, lower },
        (Some(duration), None) => Verdict::Optimal { duration },
        (None, None) => Verdict::Infeasible,
    }
}
