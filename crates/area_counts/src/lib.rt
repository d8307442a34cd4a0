// Pages counted by the areas: "The charge of a sandbox is its mapped pages", or "the uncommitted mapped pages" among them; the mapped pages of a range, and
// whether all of them are mapped or unmapped. Areas stand in order and apart, so each page is counted with its area and none is looked up.
// It promises: what is counted are the pages that `interface` counts one by one of what stands at each (proofs/CountedLaws, MappedLaws).
// It stands on `areas`, along which it goes, and on `basics` and `interface`.
#![tactic(auto)]

ghost use Rattle.std.specs.Prelude.{◌≡◌, ◌+◌, ◌≤◌};
ghost use Rattle.basics.specs.Ranges.{count};
ghost use Rattle.interface.specs.Numbers.{page_count};
ghost use Rattle.interface.specs.Slots.{mapped_pages, uncommitted_pages, all_are};
ghost use Rattle.areas.specs.Areas.{slots};
ghost use Rattle.areas.specs.Walk.{Formed};
ghost use Rattle.area_counts.specs.Counts.{counts, counted_pages, overlap, mapped_in};

use areas::area::{Area, Areas};
use interface::PageNo;

// How many pages are mapped.
#[tactic(auto, unfolding(interface::specs::Slots::mapped_pages))]
pub fn mapped_pages(areas: Areas) -> u8
    requires { Formed areas }
    ensures { result ≡ mapped_pages (slots areas) }
{
    pages(areas, true)
}

// How many pages are mapped and not committed.
#[tactic(auto, unfolding(interface::specs::Slots::uncommitted_pages))]
pub fn uncommitted_pages(areas: Areas) -> u8
    requires { Formed areas }
    ensures { result ≡ uncommitted_pages (slots areas) }
{
    pages(areas, false)
}

// How many pages are mapped, the committed ones among them or not.
fn pages(areas: Areas, committed: bool) -> u8
    requires { Formed areas }
    ensures { result ≡ count (λ i. counts committed (slots areas i)) page_count }
{
    // A loop: `sum` would ask beforehand that the whole fits a byte, which is known area by area.
    let mut n: u8 = 0;
    for area in areas.as_slice() {
        n += counted(*area, committed);
    }
    n
}

// How many of the area's pages count, the committed ones or not.
fn counted(area: Area, committed: bool) -> u8
    ensures { result ≡ counted_pages committed area }
{
    if committed | !area.committed {
        area.pages
    } else {
        0
    }
}

// Whether the n pages from first on are all mapped (or, with false, all unmapped).
pub fn all_are(areas: Areas, mapped: bool, first: PageNo, n: u8) -> bool
    requires formed { Formed areas }
    requires n_bound { first.0 + n ≤ page_count }
    ensures { result ≡ all_are mapped (slots areas) first.0 n }
{
    let pages = mapped_in(areas, first, n);
    if mapped { pages == n } else { pages == 0 }
}

// How many of the n pages from first on are mapped.
fn mapped_in(areas: Areas, first: PageNo, n: u8) -> u8
    requires formed { Formed areas }
    requires n_bound { first.0 + n ≤ page_count }
    ensures { result ≡ mapped_in (slots areas) first.0 n }
{
    let mut pages: u8 = 0;
    for area in areas.as_slice() {
        pages += overlap(*area, first, n);
    }
    pages
}

// How many of the n pages from first on are the area's.
fn overlap(area: Area, first: PageNo, n: u8) -> u8
    requires pages_bound { area.first.0 + area.pages ≤ page_count }
    requires n_bound { first.0 + n ≤ page_count }
    ensures { result ≡ overlap area first.0 n }
{
    let end = first.0 + n;
    (area.first.0 + area.pages).clamp(first.0, end) - area.first.0.clamp(first.0, end)
}
