// What is given up of the store: fronts freed, and everything at a start.
ghost use Rattle.std.specs.Prelude.{◌≡◌, ◌+◌, ◌≤◌, ◌<◌, length};
ghost use Rattle.interface.specs.Numbers.{page_bytes, page_count, sandbox_count, table_entries};
ghost use Rattle.table.specs.Store.{kept, front_of, Ranged, free_to, cleared};

use entry_release::free_entry;
use frames::Held;
use interface::PageNo;
use table::entry::{GROUP, are_empty, front_index};

// No frame is held, and pool and table are cleared.
pub fn start(pool: &mut [u8], table: &mut [u16]) -> Held
    requires { length table.old ≡ table_entries }
    ensures { kept result pool.new table.new ≡ cleared (length pool.old) }
{
    pool::clear_pool(pool);
    table.fill(0);
    Held::none()
}

// The fronts of `n` pages from `first` on are freed.
pub fn free_range(
    held: Held,
    pool: &mut [u8],
    table: &mut [u16],
    sandbox: u8,
    first: PageNo,
    n: u8,
) -> Held
    requires sandbox_bound { sandbox < sandbox_count }
    requires n_bound { first.0 + n ≤ page_count }
    requires ranged { Ranged page_bytes pool.old table.old }
    ensures { kept result pool.new table.new ≡ free_to page_bytes (front_of sandbox first.0)
        (kept held pool.old table.old) n }
{
    if n == 0 {
        return held;
    }
    let at = front_index(sandbox, first);
    free_entries(held, pool, table, at, n)
}

// The pages of `n` entries from a place on are freed, eight entries looked at together.
fn free_entries(held: Held, pool: &mut [u8], table: &mut [u16], at: usize, n: u8) -> Held
    requires n_bound { at + n ≤ table_entries }
    requires ranged { Ranged page_bytes pool.old table.old }
    requires n_bound_2 { n ≤ page_count }
    ensures { kept result pool.new table.new ≡ free_to page_bytes at
        (kept held pool.old table.old) n }
{
    let groups = n / GROUP;
    let mut h = held;
    for k in 0..groups {
        let i = k * GROUP;
        h = free_group(h, pool, table, at + i as usize);
    }
    let done = groups * GROUP;
    free_each(h, pool, table, at + done as usize, n - done)
}

// The pages of eight entries are freed. Where none has a page, nothing is done.
fn free_group(held: Held, pool: &mut [u8], table: &mut [u16], at: usize) -> Held
    requires at_bound { at + 8 ≤ table_entries }
    requires ranged { Ranged page_bytes pool.old table.old }
    ensures { kept result pool.new table.new ≡ free_to page_bytes at
        (kept held pool.old table.old) 8 }
{
    if are_empty(table, at) {
        return held;
    }
    free_each(held, pool, table, at, GROUP)
}

// The pages of `n` entries from a place on are freed, one by one.
fn free_each(held: Held, pool: &mut [u8], table: &mut [u16], at: usize, n: u8) -> Held
    requires n_bound { at + n ≤ table_entries }
    requires ranged { Ranged page_bytes pool.old table.old }
    ensures { kept result pool.new table.new ≡ free_to page_bytes at
        (kept held pool.old table.old) n }
{
    let mut h = held;
    for i in 0..n {
        h = free_entry(h, pool, table, at + i as usize);
    }
    h
}
