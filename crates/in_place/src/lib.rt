// Calls answered in place: those that leave every sandbox and the page table as they are. Reads, reports, comparisons, and writes to a page that has a
// front: of these only a byte of the pool changes. One sandbox is looked at, and the page of a read or a write is looked up once.
// It promises: what `answer` answers is the outcome of `step` (step/specs/Step) in any sound world with this sandbox, pool and table; where it
// answers nothing, nothing has changed, and a write is one that is not refused. Which calls it answers is no part of the promise: whoever calls it performs
// those that it leaves.
// It stands on `few_rows` for what is refused, on `byte_at` and `values` for what is read, stored, counted and compared, and on `step` for what a call is.
#![tactic(auto)]

ghost use Rattle.std.specs.Prelude.{◌≡◌, true, ◌||◌, ◌<◌};
ghost use Rattle.interface.specs.Numbers.{sandbox_count};
ghost use Rattle.interface.specs.Requests.{◌is◌, read_code, write_code};
ghost use Rattle.in_place.specs.InPlace.{Stands, Answers};

use crate::look::look;
use byte_at::{read, store};
use few_rows::access::decide;
use interface::{Answer, PageNo, Request};
use state::sandbox::Sandbox;

mod look;

// A call on this sandbox, answered if it leaves every sandbox and the page table as they are; else none. What it reads or stores lies in the pool or the image.
pub fn answer(
    b: Sandbox,
    pool: &mut [u8],
    table: &[u16],
    image: &[u8],
    q: Request,
) -> Option<Answer>
    requires sandbox_bound { q.sandbox < sandbox_count }
    requires stands { Stands image.now q b pool.old table.now }
    ensures { Answers image.now q b pool.old table.now result pool.new }
{
    let code = q.code;
    if (code == Request::READ) | (code == Request::WRITE) {
        return read_or_write(b, pool, table, image, q);
    }
    if (code == Request::REPORT) | (code == Request::COMPARE) {
        return Some(look(b, pool, table, image, q));
    }
    None
}

// A read or a write. A write to a page without a front takes a frame, and is left.
fn read_or_write(
    b: Sandbox,
    pool: &mut [u8],
    table: &[u16],
    image: &[u8],
    q: Request,
) -> Option<Answer>
    requires is_value { (q is read_code || q is write_code) ≡ true }
    requires sandbox_bound { q.sandbox < sandbox_count }
    requires stands { Stands image.now q b pool.old table.now }
    ensures { Answers image.now q b pool.old table.now result pool.new }
{
    let images = (image.len() / PageNo::BYTES) as u8;
    match decide(b.rec, images, q) {
        Err(why) => Some(Err(why)),
        Ok(slot) => {
            if q.code == Request::READ {
                let byte = read(pool, table, image, slot, q);
                return Some(Ok(u32::from(byte)));
            }
            let stored = store(pool, table, q);
            stored.then_some(Ok(0))
        }
    }
}
