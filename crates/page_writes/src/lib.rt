// The writes of one page of an archive roll, put into lent output or only counted: "a write for each byte that differs from its page's zero or image byte, in
// address order".
// It promises: the lines put are those of specs/PageLines. Pool, table and image are only read.
// It stands on `printing` for a line put, on `table` and `frame_bytes` for the page's back frame, and on `archive` for the lines of a roll.
#![tactic(auto)]

ghost use Rattle.std.specs.Prelude.{◌≡◌, ◌+◌, ◌*◌, ◌≤◌, ◌<◌, length};
ghost use Rattle.interface.specs.Numbers.{page_bytes, page_count, sandbox_count};
ghost use Rattle.interface.specs.Requests.{request_of, write_code};
ghost use Rattle.interface.specs.Slots.{backing_at};
ghost use Rattle.pages.specs.Parts.{frame};
ghost use Rattle.table.specs.Store.{Ranged};
ghost use Rattle.table.specs.Backing.{backing_end};
ghost use Rattle.plain.specs.Machine.{backing_byte};
ghost use Rattle.printing.specs.Put.{placed, put, Room};
ghost use Rattle.page_writes.specs.PageLines.{bytes_of, page_lines};

use frames::FrameNo;
use interface::{Backing, PageNo, Request};
use printing::{Cursor, put_if};
use slots::{backing_at, is_mapped};
use table::entry::frame_of;
use table::page::VirtualPage;

// One page. Without a back it has its backing's bytes, and none is looked at.
pub fn put_page(
    pool: &[u8],
    table: &[u16],
    image: &[u8],
    page: VirtualPage,
    out: &mut [u8],
    to: Cursor,
) -> Cursor
    requires sandbox_bound { page.sandbox < sandbox_count }
    requires number_bound { page.number.0 < page_count }
    requires ranged { Ranged page_bytes pool.now table.now }
    requires slot_in_bounds { backing_end (backing_at page.slot) * page_bytes ≤ length image.now }
    requires room { Room to out.old
        (page_lines image.now pool.now table.now page.sandbox page.number.0 page.slot) }
    ensures { placed result out.new ≡ put to out.old
        (page_lines image.now pool.now table.now
        page.sandbox page.number.0 page.slot) }
{
    let back = table::entry::back(table, page.sandbox, page.number);
    if back == 0 || !is_mapped(page.slot) {
        return to;
    }
    put_bytes(pool, image, page, frame_of(back), out, to)
}

// The bytes of a page's frame, beside those of its backing.
fn put_bytes(
    pool: &[u8],
    image: &[u8],
    page: VirtualPage,
    f: FrameNo,
    out: &mut [u8],
    to: Cursor,
) -> Cursor
    requires f_in_bounds { f.0 * page_bytes + page_bytes ≤ length pool.now }
    requires slot_in_bounds { backing_end (backing_at page.slot) * page_bytes ≤ length image.now }
    requires room { Room to out.old
        (bytes_of image.now page.sandbox page.number.0 page.slot (frame page_bytes pool.now f.0)) }
    ensures { placed result out.new ≡ put to out.old
        (bytes_of image.now page.sandbox page.number.0 page.slot
        (frame page_bytes pool.now f.0)) }
{
    let backing = backing_at(page.slot);
    let mut next = to;
    // The number of bytes, 256, is no byte itself.
    for j in 0..PageNo::BYTES {
        let offset = j as u8;
        let byte = frame_bytes::read_byte(pool, f, offset);
        let old = backing_byte(image, backing, offset);
        next = put_if(out, next, write_line(page, offset, byte), byte != old);
    }
    next
}

// The write of one byte of a page.
fn write_line(page: VirtualPage, offset: u8, byte: u8) -> Request
    ensures { result ≡ request_of write_code page.sandbox (page.number.0 * page_bytes + offset) byte 0 0 0 }
{
    Request {
        code: Request::WRITE,
        sandbox: u16::from(page.sandbox),
        p1: u16::from(page.number.0) * PageNo::BYTES as u16 + u16::from(offset),
        p2: u16::from(byte),
        p3: 0,
        p4: 0,
        p5: 0,
    }
}

// "its page's zero or image byte"
fn backing_byte(image: &[u8], backing: Backing, offset: u8) -> u8
    requires { backing_end backing * page_bytes ≤ length image.now }
    ensures { result ≡ backing_byte image.now backing offset }
{
    match backing {
        Backing::Anonymous => 0,
        Backing::Image(page) => image[usize::from(page.0) * PageNo::BYTES + usize::from(offset)],
    }
}
