// The areas of a sandbox, tested: "at most 8, with rights 1 or 3, lie in 0 to 63, ordered, apart and longest; image pages exist".
// It promises: the test of areas/specs/Formed, place by place, whatever numbers the areas hold; areas/proofs/FormedLaws says what it shows.
// It stands on `areas`, whose runs it tests, and on `area_form` for the test of one place.
#![tactic(auto)]

ghost use Rattle.std.specs.Prelude.{◌≡◌, length};
ghost use Rattle.areas.specs.Formed.{well_formed};

use area_form::{goes_on, is_fitting, is_none};
use areas::area::{Area, Areas};

// Whether the areas are well formed, over an image of so many pages: each of them, then the places behind the last.
pub fn well_formed(areas: Areas, images: u8) -> bool
    ensures value { result ≡ well_formed images areas }
    ensures eight { length areas.list ≡ 8 }
{
    if areas.count as usize > Area::MOST {
        return false;
    }
    let count = areas.count as usize;
    // Only an area that starts where the one before it ends can go on there.
    let mut end: usize = 0;
    // By place, not by area: each is looked at beside the one before it.
    for k in 0..count {
        let area = areas.list[k];
        if !is_fitting(area, end, images) {
            return false;
        }
        let start = area.first.0 as usize;
        if (start == end) & (k != 0) {
            let previous = areas.list[k - 1];
            if goes_on(previous, area) {
                return false;
            }
        }
        end = start + area.pages as usize;
    }
    for k in count..Area::MOST {
        let area = areas.list[k];
        if !is_none(area) {
            return false;
        }
    }
    true
}
