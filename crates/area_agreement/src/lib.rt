// Whether the areas are those of the snapshot, so that a page without a front agrees with the snapshot's.
// It promises the test of specs/Unchanged; where it holds, a page can differ from the snapshot's by its bytes alone (proofs/UnchangedLaws).
// It stands on `areas` for the areas, and on `comparison` for what is compared of a page.
#![tactic(auto)]

ghost use Rattle.std.specs.Prelude.{◌≡◌};
ghost use Rattle.area_agreement.specs.Unchanged.{stays, unchanged};

use areas::area::{Area, Areas};

// Whether every area is committed and stands in the snapshot with the same pages and rights. All 8 places are looked at, which takes no branch.
pub fn are_unchanged(present: Areas, snapshot: Areas) -> bool
    ensures { result ≡ unchanged present snapshot }
{
    let mut same = true;
    for (k, area) in present.list.iter().enumerate() {
        same &= stays(*area, snapshot.list[k]);
    }
    same
}

// Whether the area is committed and has the same pages and rights in the snapshot, or there is none in both.
fn stays(area: Area, copied: Area) -> bool
    ensures { result ≡ stays area copied }
{
    let marked = area.committed | (area.pages == 0);
    let placed = area.first.0 == copied.first.0;
    placed & ((area.pages == copied.pages) & ((area.rights == copied.rights) & marked))
}
