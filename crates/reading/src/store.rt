// A byte of a page, read where it stands.
ghost use Rattle.std.specs.Prelude.{◌≡◌, get_or};
ghost use Rattle.interface.specs.Numbers.{page_bytes};
ghost use Rattle.frames.specs.declared.Held.{Held as Words};
ghost use Rattle.table.specs.Store.{kept, Ranged};
ghost use Rattle.table.specs.Virtual.{bytes_read, Placed};

use slots::{backing_at, is_committed};
use table::entry::{back_if, frame_of, front};
use table::page::VirtualPage;

// One byte of a page: "A page reads its front frame; else, if committed, its back frame; else zero bytes or its image page."
pub fn read_byte(pool: &[u8], table: &[u16], image: &[u8], page: VirtualPage, offset: u8) -> u8
    requires placed { Placed image.now page }
    requires ranged { Ranged page_bytes pool.now table.now }
    ensures { (h : Words) → let before = kept h pool.now table.now in
        result ≡ get_or (bytes_read image.now before page) offset 0 }
{
    let front = front(table, page.sandbox, page.number);
    if front != 0 {
        return frame_bytes::read_byte(pool, frame_of(front), offset);
    }
    let under = back_if(table, page.sandbox, page.number, is_committed(page.slot));
    if under != 0 {
        return frame_bytes::read_byte(pool, frame_of(under), offset);
    }
    crate::backing::read_byte(image, backing_at(page.slot), offset)
}
