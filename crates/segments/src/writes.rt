// "a write for each byte that differs from its page's zero or image byte, in address order"
ghost use Rattle.std.specs.Prelude.{◌≡◌};
ghost use Rattle.printing.specs.Put.{placed, put, Room};
ghost use Rattle.segments.specs.ByPages.{writes_of, Readable};

use crate::Snapshot;
use areas::area::Areas;
use interface::PageNo;
use page_writes::put_page;
use printing::Cursor;
use table::page::VirtualPage;

// The writes of a snapshot, page by page.
pub fn put_writes(
    pool: &[u8],
    table: &[u16],
    image: &[u8],
    snapshot: Snapshot,
    out: &mut [u8],
    to: Cursor,
) -> Cursor
    requires readable { Readable image.now pool.now table.now snapshot }
    requires room { Room to out.old (writes_of image.now pool.now table.now snapshot) }
    ensures { placed result out.new ≡ put to out.old
        (writes_of image.now pool.now table.now snapshot) }
{
    let mut next = to;
    for i in 0..Areas::PAGES {
        let number = PageNo(i);
        let page = VirtualPage {
            sandbox: snapshot.sandbox,
            number,
            slot: snapshot.areas.slot(number),
        };
        next = put_page(pool, table, image, page, out, next);
    }
    next
}
