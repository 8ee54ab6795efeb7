ghost use Rattle.std.specs.Prelude.{◌≡◌, ◌≤◌, length, take};
ghost use Rattle.rcpsp_model.specs.Tree.{last_start};

use precedence_tree::{Active, Base, last_of};
use std::mem::size_of;

/// The numbers of a record that are compared first. Beside it stand the needs and the active jobs of the record.
#[derive(Clone, Copy)]
pub struct Row {
    /// The place of the record.
    pub place: u32,
    /// The start of the job that was placed last.
    pub last: u32,
    /// The greatest finish.
    pub end: u32,
    /// How many active jobs stand beside it, 0 to 128.
    pub active: u8,
}

const _: () = prove!(size_of::<Row>() <= 16);

/// The row of a front in this place.
pub fn row_of(base: &Base, place: u32) -> Row
    ensures place { result.place ≡ place }
    ensures last { result.last ≡ last_start base.now.front }
    ensures end { result.end ≡ base.now.end }
    ensures active { result.active ≡ length (take 128 base.now.active) }
{
    Row {
        place,
        last: last_of(base.front.as_slice()),
        end: base.end,
        active: base.active.len().min(128) as u8,
    }
}

/// The active jobs of a front, of which there are at most 128.
pub fn active_of(base: &Base) -> &[Active]
    ensures { result.now ≡ take 128 base.now.active }
{
    let active = base.active.as_slice();
    &active[..active.len().min(128)]
}

/// What the jobs of a front need of the first nonrenewable resources.
pub fn needs_of(base: &Base, width: u8) -> &[u32]
    requires { width ≤ 16 }
    ensures value { result.now ≡ take width base.now.needs.used }
    ensures size { length result.now ≡ width }
{
    &base.needs.used[..width as usize]
}
