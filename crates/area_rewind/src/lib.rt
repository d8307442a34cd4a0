// Area rewind: what a rewind makes of the pages of one area and of those before it.
// It promises: the store after a committed area is the one that specs/AreaRewound defines of it (`area_rewound`), after any other the one there was; the next
// page to be rewound and the pages that were found changed (`area_changed`) are told with it; the pages before one give up their fronts as table/specs/Store
// says it (`free_to`).
// It stands on `restoring` for the fronts that stay and on `freeing` for the others, on `rewind_cases` for the definition, on `areas` for the area, and on
// `table` for entries and the store.
#![tactic(auto)]

ghost use Rattle.std.specs.Prelude.{◌≡◌, ◌+◌, ◌-◌, ◌≤◌, ◌<◌};
ghost use Rattle.interface.specs.Numbers.{page_bytes, page_count, sandbox_count};
ghost use Rattle.basics.specs.Choice.{◌when◌else◌};
ghost use Rattle.table.specs.Store.{kept, front_of, Ranged, free_to};
ghost use Rattle.restoring.specs.Backed.{Backed};
ghost use Rattle.area_rewind.specs.AreaRewound.{area_rewound, area_changed};

use areas::area::Area;
use frames::Held;
use freeing::store::free_range;
use interface::PageNo;
use restoring::restore_pages;
use table::entry::front_index;

// The held marks, the first page that is still to be rewound, and how many committed pages before it had other bytes than the snapshot's.
#[derive(Clone, Copy)]
pub struct Rewound {
    pub held: Held,
    pub page: PageNo,
    pub changed: u8,
}

// An area more. Where it is committed, the fronts of the pages before it that are still to be rewound are given up, and its own get the snapshot's bytes. The
// pages of any other area stay for later, to be given up together with those behind it.
pub fn with_area(
    done: Rewound,
    pool: &mut [u8],
    table: &mut [u16],
    image: &[u8],
    area: Area,
    s: u8,
) -> Rewound
    requires s_bound { s < sandbox_count }
    requires page_le_first { done.page.0 ≤ area.first.0 }
    requires pages_bound { area.first.0 + area.pages ≤ page_count }
    requires pages_nonzero { 0 < area.pages }
    requires ranged { Ranged page_bytes pool.old table.old }
    requires backed { Backed image.now area.backing area.pages }
    requires changed_le_page { done.changed ≤ done.page.0 }
    ensures table_after { let before = kept done.held pool.old table.old in
        kept result.held pool.new table.new
        ≡ (area_rewound image.now s area done.page.0 before when area.committed else before) }
    ensures next { result.page.0 ≡ (area.first.0 + area.pages when area.committed else done.page.0) }
    ensures changed { let before = kept done.held pool.old table.old in
        result.changed
        ≡ (done.changed + area_changed image.now s area done.page.0 before when area.committed else done.changed) }
{
    if !area.committed {
        return done;
    }
    let first = area.first;
    let backing = area.backing;
    let before = done.changed;
    let held = free_before(done, pool, table, s, first.0);
    let at = front_index(s, first);
    let changed = restore_pages(pool, table, image, at, area.pages, backing);
    Rewound {
        held,
        page: PageNo(first.0 + area.pages),
        changed: before + changed,
    }
}

// The pages before one that are still to be rewound give up their fronts.
pub fn free_before(done: Rewound, pool: &mut [u8], table: &mut [u16], s: u8, end: u8) -> Held
    requires s_bound { s < sandbox_count }
    requires page_le_end { done.page.0 ≤ end }
    requires end_bound { end ≤ page_count }
    requires ranged { Ranged page_bytes pool.old table.old }
    ensures { kept result pool.new table.new ≡ free_to page_bytes (front_of s done.page.0)
        (kept done.held pool.old table.old) (end - done.page.0) }
{
    let held = done.held;
    let first = done.page;
    if first.0 == end {
        return held;
    }
    free_range(held, pool, table, s, first, end - first.0)
}
