// Areas packed, whether they are all, and one area more put behind them; what changes some pages before they are packed anew.
ghost use Rattle.std.specs.Prelude.{◌≡◌, ◌+◌, ◌≤◌, ◌<◌};
ghost use Rattle.interface.specs.Numbers.{page_count};
ghost use Rattle.areas.specs.Areas.{attributes_of};
ghost use Rattle.packing.specs.Pack.{last, continues};
ghost use Rattle.packing.specs.ByAreas.{longer_by, extended_by, placed, push_area};

use areas::area::{Area, Areas};
use interface::Attributes;

// A change of some pages: they become mapped from a first page with these attributes on, or unmapped, or get rights, or become committed.
#[derive(Clone, Copy, Debug, PartialEq, Eq)]
pub enum Change {
    Map(Attributes),
    Unmap,
    Protect(u8),
    Commit,
}

// Areas, and whether they are all: a ninth is left out. Both stand side by side, since `push` (specs/Pack) goes on packing behind an area left out.
#[derive(Clone, Copy, Debug, PartialEq, Eq)]
pub struct Packed {
    pub areas: Areas,
    pub fits: bool,
}

impl Packed {
    // One area more; one of no pages changes nothing.
    pub fn with_area(self, area: Area) -> Self
        requires count_bound { self.areas.count ≤ 8 }
        requires pages_bound { area.first.0 + area.pages ≤ page_count }
        ensures { result ≡ push_area self area }
    {
        if area.pages == 0 {
            return self;
        }
        if continues(self.areas, area) {
            return Packed {
                areas: extended(self.areas, area.pages),
                ..self
            };
        }
        if usize::from(self.areas.count) < Area::MOST {
            return Packed {
                areas: placed(self.areas, area),
                ..self
            };
        }
        Packed {
            fits: false,
            ..self
        }
    }
}

// Whether an area goes on where the last one ends.
fn continues(areas: Areas, area: Area) -> bool
    requires { areas.count ≤ 8 }
    ensures { result ≡ continues areas area.first.0 (attributes_of area) }
{
    if areas.count == 0 {
        return false;
    }
    areas.list[usize::from(areas.count) - 1].goes_on(area.first, area.attributes())
}

// The last area made longer by so many pages.
fn extended(mut areas: Areas, pages: u8) -> Areas
    requires count_nonzero { 0 < areas.count }
    requires count_bound { areas.count ≤ 8 }
    requires pages_bound { (last areas).pages + pages ≤ page_count }
    ensures { result ≡ extended_by areas pages }
{
    let k = usize::from(areas.count) - 1;
    areas.list[k] = longer(areas.list[k], pages);
    areas
}

// An area put behind the last.
fn placed(mut areas: Areas, area: Area) -> Areas
    requires { areas.count < 8 }
    ensures { result ≡ placed areas area }
{
    areas.list[usize::from(areas.count)] = area;
    areas.count += 1;
    areas
}

// The area with so many pages more at its end.
fn longer(area: Area, pages: u8) -> Area
    requires { area.pages + pages ≤ page_count }
    ensures { result ≡ longer_by area pages }
{
    Area {
        pages: area.pages + pages,
        ..area
    }
}
