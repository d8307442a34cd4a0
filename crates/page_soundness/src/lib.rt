// The pages of a sandbox, tested: "committed pages are snapshot pages and agree with them in backing", "fronts stand on mapped pages only".
// It promises: the test that `page_test` defines, part by part and area by area, whatever numbers the entries hold (specs/Entries); the laws there say what
// it shows.
// It stands on `page_test` for the test, on `committed_pages` for the parts that look at no entry, on `areas`, along which it goes, and on `marks` for the
// entries of a sandbox.
#![tactic(auto)]

ghost use Rattle.std.specs.Prelude.{◌≡◌, List, ℕ, ◌+◌, ◌-◌, ◌≤◌, ◌<◌, eqb, length, get_or};
ghost use Rattle.interface.specs.Numbers.{page_count, sandbox_count, table_entries};
ghost use Rattle.basics.specs.Ranges.{every};
ghost use Rattle.frames.specs.declared.Held.{Held as Words};
ghost use Rattle.table.specs.Store.{kept};
ghost use Rattle.areas.specs.Areas.{slots};
ghost use Rattle.areas.specs.Walk.{Formed};
ghost use Rattle.page_test.specs.Pages.{pages_ok};
ghost use Rattle.page_soundness.specs.Entries.{entry_ok};

use areas::area::Areas;
use committed_pages::{all_backed, all_committed};
use interface::PageNo;
use marks::{Marks, names_none};

// Whether each page is as a sound state asks: the marks of the snapshot's pages, the backing of committed pages, the fronts, the backs.
pub fn pages_ok(present: Areas, snapshot: Areas, table: &[u16], s: u8) -> bool
    requires s_bound { s < sandbox_count }
    requires table_len { length table.now ≡ table_entries }
    requires formed { Formed present }
    requires formed_2 { Formed snapshot }
    ensures { (h : Words) (pool : List ℕ) →
        result ≡ pages_ok (kept h pool table.now) s present snapshot }
{
    if !all_committed(snapshot) {
        return false;
    }
    if !all_backed(present, snapshot) {
        return false;
    }
    let first = s as usize * Marks::SANDBOX_ENTRIES;
    if !only_mapped(present, table, first) {
        return false;
    }
    only_mapped(snapshot, table, first + PageNo::COUNT)
}

// Whether of 64 entries from this one on only those of mapped pages name a frame: none before an area, and none behind the last.
fn only_mapped(areas: Areas, table: &[u16], first: usize) -> bool
    requires formed { Formed areas }
    requires first_in_bounds { first + page_count ≤ length table.now }
    ensures { result ≡ every (λ i. entry_ok (slots areas i) (get_or table.now (first + i) 0)) 0 page_count }
{
    let count = areas.count as usize;
    let mut page: usize = 0;
    for k in 0..count {
        let area = areas.list[k];
        let start = area.first.0 as usize;
        if !name_none(table, first, page, start) {
            return false;
        }
        page = start + area.pages as usize;
    }
    name_none(table, first, page, PageNo::COUNT)
}

// Whether the entries of the pages from one up to another name no frame.
fn name_none(table: &[u16], first: usize, page: usize, end: usize) -> bool
    requires page_le_end { page ≤ end }
    requires end_in_bounds { first + end ≤ length table.now }
    ensures { result ≡ every (λ i. eqb (get_or table.now (first + i) 0) 0) page (end - page) }
{
    names_none(&table[first + page..first + end])
}
