// The byte of an accepted read or write, where it stands.
// It promises: what is read is the byte of the page that the store and the areas say; what is stored is stored into a front that the page has, and where it has
// none nothing changes.
// It stands on `reading` and `filling` for the bytes, on `table` for the entries, and on `rows` for the page of an address.
#![tactic(auto)]

ghost use Rattle.std.specs.Prelude.{◌≡◌, ◌<◌, get_or};
ghost use Rattle.interface.specs.Numbers.{page_bytes, sandbox_count, address_count, byte_values};
ghost use Rattle.interface.specs.Requests.{offset_of};
ghost use Rattle.frames.specs.declared.Held.{Held as Words};
ghost use Rattle.table.specs.Store.{kept, Ranged};
ghost use Rattle.table.specs.Virtual.{bytes_read, Placed};
ghost use Rattle.byte_at.specs.Stored.{page_at, Stored};

use interface::{PageNo, Request, Slot};
use rows::page_of;
use table::page::VirtualPage;

// The byte that is read, of the page at which this stands.
pub fn read(pool: &[u8], table: &[u16], image: &[u8], slot: Slot, q: Request) -> u8
    requires placed { Placed image.now (page_at q slot) }
    requires ranged { Ranged page_bytes pool.now table.now }
    ensures { (h : Words) → let before = kept h pool.now table.now in
        result ≡ get_or (bytes_read image.now before (page_at q slot)) (offset_of q) 0 }
{
    let number = page_of(q);
    let page = VirtualPage {
        sandbox: q.sandbox as u8,
        number,
        slot,
    };
    reading::store::read_byte(pool, table, image, page, offset_of(q))
}

// Whether the page has a front, and the byte is stored into it.
pub fn store(pool: &mut [u8], table: &[u16], q: Request) -> bool
    requires sandbox_bound { q.sandbox < sandbox_count }
    requires p1_bound { q.p1 < address_count }
    requires p2_bound { q.p2 < byte_values }
    requires ranged { Ranged page_bytes pool.old table.now }
    ensures { Stored q pool.old table.now result pool.new }
{
    let s = q.sandbox as u8;
    let page = page_of(q);
    if table::entry::front(table, s, page) == 0 {
        return false;
    }
    filling::store::store_byte(pool, table, s, page, offset_of(q), q.p2 as u8);
    true
}

// The place of an address in its page.
fn offset_of(q: Request) -> u8
    ensures { result ≡ offset_of q }
{
    (q.p1 as usize % PageNo::BYTES) as u8
}
