// Parts of areas: what of an area lies from one page to another, and what becomes of it there.
// It promises: the part of an area, an area from a page on and an area kept, given rights or committed are those of specs/Parts, of which areas are packed
// anew in `repacking`.
// It stands on `areas`, whose runs it cuts, and on `interface` and `slots`.
#![tactic(auto)]

ghost use Rattle.std.specs.Prelude.{◌≡◌, ◌&&◌, ◌+◌, ◌≤◌, min, ltb};
ghost use Rattle.interface.specs.Numbers.{page_count};
ghost use Rattle.interface.specs.Slots.{start_of};
ghost use Rattle.area_parts.specs.Parts.{area_from, part_of, updated_area};

use areas::area::Area;
use interface::{Attributes, PageNo};
use slots::advanced;

// What becomes of an area: it is kept as it is, gets rights, or becomes committed.
#[derive(Clone, Copy, Debug, PartialEq, Eq)]
pub enum Update {
    Keep,
    Rights(u8),
    Commit,
}

impl Update {
    // What becomes of the area.
    pub fn area(self, area: Area) -> Area
        ensures { result ≡ updated_area self area }
    {
        match self {
            Update::Keep => area,
            Update::Rights(rights) => Area { rights, ..area },
            Update::Commit => Area {
                committed: true,
                ..area
            },
        }
    }
}

// Whether the area has a page from one page to another.
pub fn reaches(area: Area, from: u8, to: u8) -> bool
    requires { area.first.0 + area.pages ≤ page_count }
    ensures { result ≡ (ltb area.first.0 to && ltb from (area.first.0 + area.pages)) }
{
    (area.first.0 < to) & (from < area.first.0 + area.pages)
}

// The part of an area from one page to another; it may have no page.
pub fn part(area: Area, from: u8, to: u8) -> Area
    requires backing_bound { start_of area.backing ≤ page_count }
    requires pages_bound { area.first.0 + area.pages ≤ page_count }
    requires from_bound { from ≤ page_count }
    ensures { result ≡ part_of area from to }
{
    let start = area.first.0;
    let first = start.max(from);
    let end = (start + area.pages).min(to);
    Area {
        first: PageNo(first),
        pages: end.saturating_sub(first),
        backing: advanced(area.backing, first - start),
        ..area
    }
}

// The area of so many pages from this page on, the first of them with these attributes.
pub fn area_from(page: u8, pages: u8, t: Attributes) -> Area
    ensures { result ≡ area_from page pages t }
{
    Area {
        first: PageNo(page),
        pages,
        rights: t.rights,
        committed: t.committed,
        backing: t.backing,
    }
}

// The page, or 64 where it lies behind the last.
pub fn within(page: usize) -> u8
    ensures { result ≡ min page page_count }
{
    page.min(PageNo::COUNT) as u8
}
