//! Numbers over the periods that change at certain times alone.

ghost use Rattle.std.specs.Prelude.{◌≡◌, ℕ, ◌+◌, ◌-◌, ◌*◌, ◌^◌, ◌<◌, ◌≤◌, length, slice_index, vec_len, vec_capacity, IfOk, IfSome, IfNone, OnOk};
ghost use Rattle.profiles.specs.Steps.{IsRising, IsSpan, HasSteps, AreInOrder, HaveRoom};

use sched_base::NoMemory;
use std::alloc::Global;

/// A number of each renewable resource for each period: nothing before the first of the times, and from each time up to the
/// next, from the last for good, what the time's row says.
#[derive(Drop)]
pub struct Steps {
    /// The periods at which numbers may change, in ascending order.
    pub times: Vec<u32>,
    /// The rows of the times, one after another.
    pub levels: Vec<u32>,
    /// How many numbers a row has: one for each renewable resource.
    pub width: usize,
}

/// How many of the times have come by the period.
pub fn begun_by(times: &[u32], period: u32) -> usize
    requires { IsRising times.now }
    ensures within { result ≤ length times.now }
    ensures begun { (i : ℕ) → i < result → slice_index times.now i ≤ period }
    ensures ahead { (i : ℕ) → result ≤ i → i < length times.now → period < slice_index times.now i }
{
    times.partition_point(|time| *time <= period)
}

/// The time after the one in the place, or a period that no start or finish reaches.
fn next_time(times: &[u32], row: usize) -> u64
    requires { row < length times.now }
    ensures next { row + 1 < length times.now → result ≡ slice_index times.now (row + 1) }
    ensures last { length times.now ≤ row + 1 → result ≡ 2 ^ 64 - 1 }
{
    if row + 1 < times.len() {
        u64::from(times[row + 1])
    } else {
        u64::MAX
    }
}

/// The number in a place of a row.
fn level(steps: &Steps, row: usize, place: usize) -> u32
    requires order { AreInOrder steps.now }
    requires row { row < length steps.now.times.items }
    requires place { place < steps.now.width }
    ensures { result ≡ slice_index steps.now.levels.items (row * steps.now.width + place) }
{
    steps.levels[row * steps.width + place]
}

/// The number in a place of the rows for the period.
pub fn level_at(steps: &Steps, place: usize, period: u32) -> u32
    requires order { AreInOrder steps.now }
    requires place { place < steps.now.width }
    ensures { (number : ℕ → ℕ) → HasSteps number steps.now place → result ≡ number period }
{
    let begun = begun_by(steps.times.as_slice(), period);
    if begun == 0 {
        0
    } else {
        level(steps, begun - 1, place)
    }
}

/// The end of the first span within some periods in which the number is above the limit, as far as it is the same.
pub fn over_up_to(steps: &Steps, place: usize, limit: u32, from: u32, until: u64) -> Option<u64>
    requires order { AreInOrder steps.now }
    requires place { place < steps.now.width }
    requires some { from < until }
    ensures none { IfNone result ((number : ℕ → ℕ) → HasSteps number steps.now place → (t : ℕ) → from ≤ t → t < until → number t ≤ limit) }
    ensures some { IfSome result (λ end. (number : ℕ → ℕ) → HasSteps number steps.now place → IsSpan (λ t. limit < number t) from until end) }
{
    let times = steps.times.as_slice();
    let first = begun_by(times, from).saturating_sub(1);
    for row in first..times.len() {
        if until <= u64::from(times[row]) {
            return None;
        }
        if limit < level(steps, row, place) {
            return Some(next_time(times, row));
        }
    }
    None
}

/// Makes room for so many more times and their rows.
pub fn reserve_rows(steps: &mut Steps, more: usize) -> Result<(), NoMemory>
    ensures times { steps.new.times.items ≡ steps.old.times.items }
    ensures levels { steps.new.levels.items ≡ steps.old.levels.items }
    ensures width { steps.new.width ≡ steps.old.width }
    ensures room { OnOk result (HaveRoom steps.new more) }
    ensures kept { (n : ℕ) → HaveRoom steps.old n → HaveRoom steps.new n }
{
    let Some(numbers) = more.checked_mul(steps.width) else {
        return Err(NoMemory);
    };
    steps.times.reserve_exact(more)?;
    steps.levels.reserve_exact(numbers)?;
    Ok(())
}
