// The lowest gap of a sandbox's pages, found along its areas: they stand in order and apart, so no page is looked up.
// It promises: the gap is the lowest, as `interface` defines it of what stands at each page (proofs/GapLaws).
// It stands on `areas`, along which it goes, and on `basics` and `interface`.
#![tactic(auto)]

ghost use Rattle.std.specs.Prelude.{◌≡◌};
ghost use Rattle.interface.specs.Slots.{lowest_gap};
ghost use Rattle.areas.specs.Areas.{slots};
ghost use Rattle.areas.specs.Walk.{Formed};

use areas::area::Areas;

// The lowest page from which n unmapped pages run, or 64 where there is none: the gap before each area in turn, and the one behind the last.
pub fn lowest_gap(areas: Areas, n: u8) -> u8
    requires { Formed areas }
    ensures { result ≡ lowest_gap (slots areas) n }
{
    let mut page: u8 = 0;
    for area in areas.as_slice() {
        if n <= area.first.0 - page {
            return page;
        }
        page = area.first.0 + area.pages;
    }
    if n <= Areas::PAGES - page {
        return page;
    }
    Areas::PAGES
}
