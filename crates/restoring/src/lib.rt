// Committed pages restored: a rewind gives their fronts the snapshot's bytes, and counts those whose bytes differed.
// It promises: what is left is the store that rewind_cases/specs/Rewind defines of it (`rewind_to`, all fronts kept), whatever marks there are, and the number
// is the one of specs/Changed (`changed_to`): together `RestoredTo`.
// It stands on `page_restore` for one page, on `rewind_cases` and `rewound_store` for the definition and its laws, on `table` for entries and the store, and on
// `slots` and `interface` for a page's backing.
#![tactic(auto)]

ghost use Rattle.std.specs.Prelude.{◌≡◌, ℕ, ◌+◌, ◌≤◌, ◌<◌, ltb, length, get_or};
ghost use Rattle.basics.specs.Choice.{◌when◌else◌};
ghost use Rattle.interface.specs.Numbers.{page_bytes, page_count, table_entries};
ghost use Rattle.frames.specs.declared.Held.{Held as Words};
ghost use Rattle.table.specs.Store.{kept, Ranged};
ghost use Rattle.restoring.specs.Restored.{RestoredTo};
ghost use Rattle.restoring.specs.Backed.{Backed};

use interface::Backing;
use page_restore::restore_page;
use slots::advanced;
use table::entry::{GROUP, are_empty};

// So many committed pages are restored, and how many had other bytes is told. The first has its front entry at a place of the table, and this backing.
pub fn restore_pages(
    pool: &mut [u8],
    table: &[u16],
    image: &[u8],
    at: usize,
    pages: u8,
    backing: Backing,
) -> u8
    requires pages_bound { at + pages + page_count ≤ table_entries }
    requires ranged { Ranged page_bytes pool.old table.now }
    requires backed { Backed image.now backing pages }
    requires pages_bound_2 { pages ≤ page_count }
    ensures { (h : Words) → let before = kept h pool.old table.now in
        RestoredTo image.now backing at before (kept h pool.new table.now) result pages }
{
    // No `for`: how far a turn goes on is found in the table.
    let mut changed: u8 = 0;
    let mut i = next_front(table, at, 0, pages);
    while i < pages {
        let n = group_of(pages - i);
        changed = changed
            + restore_each(pool, table, image, at + i as usize, n, advanced(backing, i));
        i = next_front(table, at, i + n, pages);
    }
    changed
}

// Eight pages, or as many as are left.
fn group_of(left: u8) -> u8
    ensures { result ≡ (left when ltb left 8 else 8) }
{
    left.min(GROUP)
}

// From one page on, the page at which eight entries are not all empty; the end where there is none. So a rewind works in proportion to the fronts there are: of
// the other entries, eight are looked at together.
fn next_front(table: &[u16], at: usize, from: u8, pages: u8) -> u8
    requires table_len { length table.now ≡ table_entries }
    requires pages_bound { at + pages + page_count ≤ table_entries }
    requires pages_bound_2 { pages ≤ page_count }
    requires from_le_pages { from ≤ pages }
    ensures lower_bound { (from ≤ result) × (result ≤ pages) }
    ensures empty { (i : ℕ) → from ≤ i → i < result → get_or table.now (at + i) 0 ≡ 0 }
{
    // No `for`: one over `step_by` is not proved to end.
    let mut i = from;
    while i < pages {
        if !are_empty(table, at + i as usize) {
            return i;
        }
        i += GROUP;
    }
    pages
}

// So many committed pages are restored, one by one.
fn restore_each(
    pool: &mut [u8],
    table: &[u16],
    image: &[u8],
    at: usize,
    pages: u8,
    backing: Backing,
) -> u8
    requires pages_bound { at + pages + page_count ≤ table_entries }
    requires ranged { Ranged page_bytes pool.old table.now }
    requires backed { Backed image.now backing pages }
    requires pages_bound_2 { pages ≤ page_count }
    ensures { (h : Words) → let before = kept h pool.old table.now in
        RestoredTo image.now backing at before (kept h pool.new table.now) result pages }
{
    let mut changed: u8 = 0;
    for i in 0..pages {
        let differed = restore_page(pool, table, image, at + i as usize, advanced(backing, i));
        changed = changed + u8::from(differed);
    }
    changed
}
