// The lent page table, read and stored by sandbox and page: "for each sandbox 64 front entries, then 64 back entries".
// An entry stays the number that it is in the lent memory, "0 for none, else a frame number plus one": the table's form is part of the C interface.
ghost use Rattle.std.specs.Prelude.{◌≡◌, List, ℕ, ◌+◌, ◌-◌, ◌*◌, ◌≤◌, ◌<◌, eqb, length, get_or};
ghost use Rattle.interface.specs.Numbers.{page_count, sandbox_count, table_entries, most_frames};
ghost use Rattle.basics.specs.Choice.{◌when◌else◌};
ghost use Rattle.basics.specs.Ranges.{every};
ghost use Rattle.frames.specs.declared.Held.{Held as Words};
ghost use Rattle.table.specs.Store.{kept, front_of, back_of, move, move_to};

use frames::FrameNo;
use interface::PageNo;
use marks::{Marks, names_none};

// The front entry of a page: "0 for none, else a frame number plus one".
pub fn front(table: &[u16], sandbox: u8, page: PageNo) -> u16
    requires sandbox_bound { sandbox < sandbox_count }
    requires page_bound { page.0 < page_count }
    requires table_len { length table.now ≡ table_entries }
    ensures { result ≡ get_or table.now (front_of sandbox page.0) 0 }
{
    table[front_index(sandbox, page)]
}

// The back entry of a page.
pub fn back(table: &[u16], sandbox: u8, page: PageNo) -> u16
    requires sandbox_bound { sandbox < sandbox_count }
    requires page_bound { page.0 < page_count }
    requires table_len { length table.now ≡ table_entries }
    ensures { result ≡ get_or table.now (back_of sandbox page.0) 0 }
{
    table[front_index(sandbox, page) + PageNo::COUNT]
}

// The back entry of a committed page; none of one that is not.
pub fn back_if(table: &[u16], sandbox: u8, page: PageNo, committed: bool) -> u16
    requires sandbox_bound { sandbox < sandbox_count }
    requires page_bound { page.0 < page_count }
    requires table_len { length table.now ≡ table_entries }
    ensures { result ≡ (get_or table.now (back_of sandbox page.0) 0 when committed else 0) }
{
    if committed {
        back(table, sandbox, page)
    } else {
        0
    }
}

// How many entries are looked at together.
pub const GROUP: u8 = Marks::TOGETHER as u8;

// Whether none of the eight entries from a place on names a frame.
pub fn are_empty(table: &[u16], at: usize) -> bool
    requires { at + 8 ≤ length table.now }
    ensures { result ≡ every (λ i. eqb (get_or table.now (at + i) 0) 0) 0 8 }
{
    names_none(&table[at..at + GROUP as usize])
}

// The fronts of all pages of a sandbox become its backs.
pub fn move_fronts(table: &mut [u16], sandbox: u8)
    requires sandbox_bound { sandbox < sandbox_count }
    requires table_len { length table.old ≡ table_entries }
    ensures { (h : Words) (pool : List ℕ) → let before = kept h pool table.old in
        kept h pool table.new ≡ move_to (sandbox * most_frames) before page_count }
{
    for i in 0..PageNo::COUNT as u8 {
        move_front(table, sandbox, PageNo(i));
    }
}

// The front of a page becomes its back.
fn move_front(table: &mut [u16], sandbox: u8, page: PageNo)
    requires sandbox_bound { sandbox < sandbox_count }
    requires page_bound { page.0 < page_count }
    requires table_len { length table.old ≡ table_entries }
    ensures { (h : Words) (pool : List ℕ) → let before = kept h pool table.old in
        kept h pool table.new ≡ move (front_of sandbox page.0) (back_of sandbox page.0) before }
{
    let from = front_index(sandbox, page);
    let entry = table[from];
    table[from] = 0;
    table[from + PageNo::COUNT] = entry;
}

// Where a page's front entry stands; its back entry stands 64 further on.
pub fn front_index(sandbox: u8, page: PageNo) -> usize
    requires sandbox_bound { sandbox < sandbox_count }
    requires page_bound { page.0 < page_count }
    ensures { result ≡ front_of sandbox page.0 }
{
    sandbox as usize * Marks::SANDBOX_ENTRIES + page.0 as usize
}

// The frame that an entry names, which names one.
pub fn frame_of(entry: u16) -> FrameNo
    requires nonzero { 0 < entry }
    requires bound { entry ≤ most_frames }
    ensures { result.0 ≡ entry - 1 }
{
    FrameNo((entry - 1) as u8)
}
