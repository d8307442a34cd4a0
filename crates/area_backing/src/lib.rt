// An area beside one of the snapshot's: how far they have the same pages with the same backing.
// It promises: `reached` is the page up to which the snapshot's area has them (specs/Reach), and `lies_in` whether it has them all.
// It stands on `areas` for what an area is.
#![tactic(auto)]

ghost use Rattle.std.specs.Prelude.{◌≡◌, ℕ, ◌+◌, ◌-◌, ◌≤◌, leb};
ghost use Rattle.interface.specs.Slots.{advance, follows};
ghost use Rattle.basics.specs.Choice.{implies};
ghost use Rattle.area_backing.specs.Reach.{reach};

use areas::area::Area;
use interface::Backing;

// Whether one area of the snapshot has all pages of an area with the same backing; none is asked for where it is not committed.
pub fn lies_in(area: Area, copy: Area) -> bool
    ensures { result ≡ implies area.committed
        (leb (area.first.0 + area.pages) (reach area copy area.first.0)) }
{
    if !area.committed {
        return true;
    }
    let first = usize::from(area.first.0);
    first + usize::from(area.pages) <= reached(area, copy, first)
}

// How far the snapshot has the area's pages from this one on, as one area of it says.
pub fn reached(area: Area, copy: Area, page: usize) -> usize
    requires { area.first.0 ≤ page }
    ensures { result ≡ reach area copy page }
{
    let start = usize::from(copy.first.0);
    let end = start + usize::from(copy.pages);
    if page < start {
        return page;
    }
    if end <= page {
        return page;
    }
    if !agrees(area.backing, area.first.0, copy.backing, copy.first.0) {
        return page;
    }
    end
}

// Whether two backings, each of an area from its first page on, are the same at each page of both.
fn agrees(mine: Backing, first: u8, other: Backing, start: u8) -> bool
    ensures { (page : ℕ) → first ≤ page → start ≤ page →
        result ≡ follows (advance mine (page - first)) 0 (advance other (page - start)) }
{
    match (mine, other) {
        (Backing::Anonymous, Backing::Anonymous) => true,
        (Backing::Image(p), Backing::Image(q)) => u32::from(p.0) + u32::from(start)
            == u32::from(q.0) + u32::from(first),
        _ => false,
    }
}
