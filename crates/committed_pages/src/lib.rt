// The committed pages of a sandbox, tested: "committed pages are snapshot pages and agree with them in backing". It looks at areas alone and knows nothing of
// entries and frames.
// It promises: the parts of the test of a page that look at no entry (specs/Parts), each of all pages, area by area.
// It stands on `areas`, along which it goes, and on `area_backing` for how far one area of the snapshot has the pages of another.
#![tactic(auto)]

ghost use Rattle.std.specs.Prelude.{◌≡◌};
ghost use Rattle.interface.specs.Numbers.{page_count};
ghost use Rattle.basics.specs.Ranges.{every};
ghost use Rattle.areas.specs.Areas.{slot_of, slots};
ghost use Rattle.areas.specs.Walk.{Formed};
ghost use Rattle.committed_pages.specs.Parts.{mark_ok, backing_ok};

use area_backing::{lies_in, reached};
use areas::area::{Area, Areas};

// Whether every page of the areas is committed.
pub fn all_committed(areas: Areas) -> bool
    requires { Formed areas }
    ensures { result ≡ every (λ i. mark_ok (slots areas i)) 0 page_count }
{
    areas.as_slice().iter().all(|area| area.committed)
}

// Whether the committed pages are snapshot pages with the same backing. Most often the snapshot's area in the same place has them.
pub fn all_backed(present: Areas, snapshot: Areas) -> bool
    requires formed { Formed present }
    requires formed_2 { Formed snapshot }
    ensures { result ≡ every (λ i. backing_ok (slots present i) (slots snapshot i)) 0 page_count }
{
    for (k, area) in present.as_slice().iter().enumerate() {
        if !lies_in(*area, snapshot.list[k]) {
            if !is_backed(*area, snapshot) {
                return false;
            }
        }
    }
    true
}

// Whether the committed pages of one area are: a walk along the snapshot's areas must come to its end.
fn is_backed(area: Area, snapshot: Areas) -> bool
    requires { Formed snapshot }
    ensures { result ≡ every (λ i. backing_ok (slot_of area i) (slots snapshot i)) area.first.0 area.pages }
{
    if !area.committed {
        return true;
    }
    let mut page = usize::from(area.first.0);
    for copy in snapshot.as_slice() {
        page = reached(area, *copy, page);
    }
    usize::from(area.first.0) + usize::from(area.pages) <= page
}
