// Entry release: the page of one entry given up, "freed and cleared to zero".
// It promises: what is left is the store that table/specs/Store defines of it (`free`): the entry, its frame and the frame's mark are cleared, and no other.
// It stands on `table` for entries and the store, on `pool` for the bytes of a frame, and on `frames` for the held marks.
#![tactic(auto)]

ghost use Rattle.std.specs.Prelude.{◌≡◌, ◌<◌};
ghost use Rattle.interface.specs.Numbers.{page_bytes, table_entries};
ghost use Rattle.table.specs.Store.{kept, Ranged, free};

use frames::Held;
use table::entry::frame_of;

// The page of an entry, if it has one, is freed: its frame is cleared and no longer held.
pub fn free_entry(held: Held, pool: &mut [u8], table: &mut [u16], at: usize) -> Held
    requires at_bound { at < table_entries }
    requires ranged { Ranged page_bytes pool.old table.old }
    ensures { kept result pool.new table.new ≡ free page_bytes at
        (kept held pool.old table.old) }
{
    let entry = table[at];
    if entry == 0 {
        return held;
    }
    let f = frame_of(entry);
    table[at] = 0;
    pool::clear_frame(pool, f);
    held.without(f)
}
