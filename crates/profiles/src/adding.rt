//! One more entry's requests in the periods from its start up to its finish.

ghost use Rattle.std.specs.Prelude.{◌≡◌, ℕ, ◌+◌, ◌-◌, ◌*◌, ◌%◌, ◌<◌, ◌≤◌, length, slice_index, vec_len, vec_capacity, All};
ghost use Rattle.profiles.specs.Steps.{AreInOrder, HaveRoom};
ghost use Rattle.profiles.specs.Adding.{AreShifted, AreRaised, IsSplit, IsAdded};

use crate::steps::{Steps, begun_by};

/// Puts a row in before the one that begins in the place: a row like the one before it, or of zeros where there is none.
fn put_row(levels: &mut Vec<u32>, first: usize, width: usize)
    requires within { first ≤ vec_len levels.old }
    requires room { vec_len levels.old + width ≤ vec_capacity levels.old }
    ensures shifted { AreShifted levels.old.items levels.new.items first width (first + width) }
    ensures capacity { vec_capacity levels.old ≤ vec_capacity levels.new }
{
    for place in first..first + width {
        let level = if first < width {
            0
        } else {
            levels[place - width]
        };
        let _ = levels.insert(place, level);
    }
}

/// Makes the period one of the times, where it isn't yet, and gives its place among them.
fn split(steps: &mut Steps, time: u32) -> usize
    requires order { AreInOrder steps.old }
    requires room { HaveRoom steps.old 1 }
    ensures split { IsSplit steps.old steps.new time result }
    ensures room { (n : ℕ) → HaveRoom steps.old (n + 1) → HaveRoom steps.new n }
{
    let begun = begun_by(steps.times.as_slice(), time);
    if begun > 0 && steps.times[begun - 1] == time {
        return begun - 1;
    }
    let _ = steps.times.insert(begun, time);
    let first = begun * steps.width;
    put_row(&mut steps.levels, first, steps.width);
    begun
}

/// Adds the requests in each of the rows from the one that begins in the first place up to the one that begins in the other.
fn add_rows(levels: &mut Vec<u32>, first: usize, until: usize, requests: &[u32])
    requires order { first ≤ until }
    requires within { until ≤ vec_len levels.old }
    requires width { first < until → 0 < length requests.now }
    requires levels { (q : ℕ) → slice_index levels.old.items q ≤ 1000000 }
    requires requests { All (λ r. r ≤ 1000000) requests.now }
    ensures raised { AreRaised levels.old.items levels.new.items first until requests.now }
    ensures capacity { vec_capacity levels.new ≡ vec_capacity levels.old }
{
    let width = requests.len();
    for place in first..until {
        levels[place] += requests[place % width];
    }
}

/// Adds the requests of an entry in each period from its start up to its finish.
pub fn add(steps: &mut Steps, start: u32, finish: u32, requests: &[u32])
    requires periods { start ≤ finish }
    requires order { AreInOrder steps.old }
    requires room { HaveRoom steps.old 2 }
    requires levels { (q : ℕ) → slice_index steps.old.levels.items q ≤ 1000000 }
    requires width { length requests.now ≡ steps.old.width }
    requires requests { All (λ r. r ≤ 1000000) requests.now }
    ensures added { IsAdded steps.old steps.new start finish requests.now }
    ensures room { (n : ℕ) → HaveRoom steps.old (n + 2) → HaveRoom steps.new n }
{
    let first = split(steps, start);
    let last = split(steps, finish);
    let width = steps.width;
    add_rows(&mut steps.levels, first * width, last * width, requests);
}
