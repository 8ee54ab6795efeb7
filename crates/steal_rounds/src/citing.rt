// The rows of live records, once all workers have ended.
ghost use Rattle.std.specs.Prelude.{◌≡◌, ◌≤◌, length};
ghost use Rattle.std.specs.List.{AllZip};
ghost use Rattle.steal_rounds.specs.Cited.{ArePublished, AreSamePublished, IsToBeCited, AreToBeCited, AreFills, IsRowOf, CitesThem};

use crate::gathering::Published;
use cutset_store::CutRecord;
use search_log::{Fill, RowFate};
use search_rounds::PlacedRecord;
use shared_rows::{Rows, agree};
use tree_worker::LiveNote;

// The place of the row of a live record.
fn cited_place(
    _rows: &Rows<CutRecord>,
    made: &[PlacedRecord],
    published: &mut [Published],
    cited: &mut LiveNote,
) -> u32
    requires published { ArePublished _rows.now made.now published.old }
    requires cited { IsToBeCited _rows.now published.old cited.old }
    ensures published { AreSamePublished published.old published.new }
    ensures cited { cited.new ≡ cited.old }
    ensures row { IsRowOf made.now result cited.old }
{
    let by = &mut published[cited.worker as usize - 1];
    let number = cited.place as usize;
    agree(&mut cited.note, &mut by.shown[number].note);
    made[by.first + number].place
}

/// Lets the fills of these numbers cite the rows of the live records, each that of its own.
pub(crate) fn cite_live(
    rows: &Rows<CutRecord>,
    made: &[PlacedRecord],
    published: &mut [Published],
    cited: &mut [LiveNote],
    live: &[u32],
    fills: &mut [Fill],
)
    requires published { ArePublished rows.now made.now published.old }
    requires cited { AreToBeCited rows.now published.old cited.old }
    requires many { length live.now ≡ length cited.old }
    requires fills { AreFills (length fills.old) live.now }
    ensures { CitesThem made.now cited.old live.now fills.old fills.new }
{
    for done in 0..live.len() {
        let place = cited_place(rows, made, published, &mut cited[done]);
        fills[live[done] as usize].fate = RowFate::Cited(place);
    }
}
