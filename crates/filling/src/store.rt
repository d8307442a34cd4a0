// What is put into the frames of pages: a byte stored, a frame taken.
ghost use Rattle.std.specs.Prelude.{◌≡◌, ◌+◌, ◌*◌, ◌≤◌, ◌<◌, length};
ghost use Rattle.interface.specs.Numbers.{page_bytes, page_count, sandbox_count, most_frames};
ghost use Rattle.frames.specs.declared.Held.{Held as Words};
ghost use Rattle.table.specs.Store.{kept, front_of, Ranged, take, store_byte};
ghost use Rattle.table.specs.Virtual.{front_at, bytes_under, Placed};

use frames::{FrameNo, Held};
use interface::PageNo;
use page_fill::fill_frame;
use slots::{backing_at, is_committed};
use table::entry::{back_if, frame_of, front, front_index};
use table::page::VirtualPage;

// One byte of a page's front frame, if it has one, is stored.
pub fn store_byte(pool: &mut [u8], table: &[u16], sandbox: u8, page: PageNo, offset: u8, byte: u8)
    requires sandbox_bound { sandbox < sandbox_count }
    requires page_bound { page.0 < page_count }
    requires ranged { Ranged page_bytes pool.old table.now }
    ensures { (h : Words) → kept h pool.new table.now
        ≡ store_byte page_bytes (front_of sandbox page.0) offset byte
        (kept h pool.old table.now) }
{
    let front = front(table, sandbox, page);
    if front == 0 {
        return;
    }
    frame_bytes::store_byte(pool, frame_of(front), offset, byte);
}

// A page's front entry takes frame `f`, filled with what the page reads but for a front. Which frame is the caller's choice.
pub fn take(
    held: Held,
    pool: &mut [u8],
    table: &mut [u16],
    image: &[u8],
    page: VirtualPage,
    f: FrameNo,
) -> Held
    requires placed { Placed image.now page }
    requires ranged { Ranged page_bytes pool.old table.old }
    requires f_bound { f.0 < most_frames }
    requires f_in_bounds { f.0 * page_bytes + page_bytes ≤ length pool.old }
    ensures { let before = kept held pool.old table.old in
        kept result pool.new table.new
        ≡ take page_bytes (front_at page) f.0 (bytes_under image.now before page) before }
{
    let under = back_if(table, page.sandbox, page.number, is_committed(page.slot));
    fill_frame(pool, f, under, image, backing_at(page.slot));
    table[front_index(page.sandbox, page.number)] = f.0 as u16 + 1;
    held.with(f)
}
