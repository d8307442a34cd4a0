// What a page of a sandbox reads, now and in the snapshot: definitions and laws, and one byte of it computed.
// It promises: the byte is that of `page_read`. Nothing is changed.
// It stands on `table` for the frames, on `records` and `areas` for what stands at a page, and on `rules` for what a request within its limits is.
#![tactic(auto)]

ghost use Rattle.std.specs.Prelude.{◌≡◌, ◌<◌, length, get_or};
ghost use Rattle.interface.specs.Numbers.{page_bytes, sandbox_count, pages_in};
ghost use Rattle.frames.specs.declared.Held.{Held as Words};
ghost use Rattle.interface.specs.Requests.{read_code, page_of, offset_of};
ghost use Rattle.table.specs.Store.{kept, Ranged};
ghost use Rattle.rules.specs.Ready.{Fit, Ready};
ghost use Rattle.content.specs.Content.{page_read};

use interface::{PageNo, Request};
use records::Record;
use table::page::VirtualPage;

// The byte that a page reads.
pub fn read(pool: &[u8], table: &[u16], image: &[u8], b: Record, q: Request) -> u8
    requires code_value { q.code ≡ read_code }
    requires sandbox_bound { q.sandbox < sandbox_count }
    requires fit { Fit q }
    requires ready { Ready (pages_in (length image.now)) b }
    requires ranged { Ranged page_bytes pool.now table.now }
    ensures { (h : Words) → let before = kept h pool.now table.now in
        result ≡ get_or (page_read image.now before b q.sandbox (page_of q)) (offset_of q) 0 }
{
    let present = b.present;
    let number = PageNo((q.p1 / PageNo::BYTES as u16) as u8);
    let slot = present.slot(number);
    let page = VirtualPage {
        sandbox: q.sandbox as u8,
        number,
        slot,
    };
    reading::store::read_byte(
        pool,
        table,
        image,
        page,
        (q.p1 % PageNo::BYTES as u16) as u8,
    )
}
