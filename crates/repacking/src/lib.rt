// Areas packed anew after a change of pages: the parts of the old areas before the changed pages, in them and behind them are put one behind the other.
// It promises: the areas after a change are those of `packing` (packing/specs/Pack), packed page by page from left to right, and it says when a ninth would
// be needed. The code goes by the parts of areas, which comes to the same (proofs/PartLaws, BeforeLaws, RepackLaws).
// It stands on `packing`, whose areas it puts one behind the other, on `area_parts`, which cuts them, and on `areas`, `basics` and `interface`.
#![tactic(auto)]

ghost use Rattle.std.specs.Prelude.{◌≡◌, ◌-◌, ◌≤◌};
ghost use Rattle.interface.specs.Numbers.{page_count};
ghost use Rattle.areas.specs.Areas.{slots};
ghost use Rattle.areas.specs.Walk.{Formed};
ghost use Rattle.area_parts.specs.declared.Update.TheVariants.{Keep};
ghost use Rattle.area_parts.specs.Parts.{updated};
ghost use Rattle.packing.specs.Pack.{start, pack, change_at, changed, change_start};
ghost use Rattle.packing.specs.ByAreas.{pack_on, Ready};

use area_parts::{Update, area_from, part, reaches, within};
use areas::area::Areas;
use interface::PageNo;
use packing::pack::{Change, Packed};

// The areas after a change of n pages from first on.
pub fn repack(areas: Areas, first: PageNo, n: u8, change: Change) -> Packed
    requires formed { Formed areas }
    requires change_bound { change_start change ≤ page_count }
    ensures { result ≡ pack (changed (slots areas) first.0 n change) }
{
    let from = within(usize::from(first.0));
    let to = within(usize::from(first.0) + usize::from(n));
    let before = up_to(areas, from);
    let changed = with_change(before, areas, from, to, change);
    with_parts(changed, areas, to, Areas::PAGES, Update::Keep)
}

// The pages before a page packed: areas stand apart, so those before it are kept in their places, the last up to that page.
fn up_to(areas: Areas, to: u8) -> Packed
    requires formed { Formed areas }
    requires to_bound { to ≤ page_count }
    ensures { result ≡ pack_on start (λ i. updated Keep (slots areas i)) 0 to }
{
    let mut kept = Areas::empty();
    for area in areas.as_slice() {
        if to <= area.first.0 {
            return Packed {
                areas: kept,
                fits: true,
            };
        }
        kept.list[usize::from(kept.count)] = part(*area, 0, to);
        kept.count += 1;
    }
    Packed {
        areas: kept,
        fits: true,
    }
}

// What a change makes of the pages from one page to another, put behind what is packed.
fn with_change(before: Packed, areas: Areas, from: u8, to: u8, change: Change) -> Packed
    requires formed { Formed areas }
    requires ready { Ready before from }
    requires from_le_to { from ≤ to }
    requires to_bound { to ≤ page_count }
    ensures { result ≡ pack_on before (λ i. change_at change (i - from) (slots areas i)) from (to - from) }
{
    match change {
        Change::Map(t) => before.with_area(area_from(from, to - from, t)),
        Change::Unmap => before,
        Change::Protect(rights) => with_parts(before, areas, from, to, Update::Rights(rights)),
        Change::Commit => with_parts(before, areas, from, to, Update::Commit),
    }
}

// What becomes of the pages from one page to another, put behind what is packed: the part of each area that lies there.
fn with_parts(before: Packed, areas: Areas, from: u8, to: u8, update: Update) -> Packed
    requires formed { Formed areas }
    requires ready { Ready before from }
    requires from_le_to { from ≤ to }
    requires to_bound { to ≤ page_count }
    ensures { result ≡ pack_on before (λ i. updated update (slots areas i)) from (to - from) }
{
    let mut packed = before;
    for area in areas.as_slice() {
        // What is packed is copied only where there is something to add.
        if reaches(*area, from, to) {
            packed = packed.with_area(update.area(part(*area, from, to)));
        }
    }
    packed
}
