// A write: a page without a front takes a frame, and then one byte of its front is stored.
// It promises: the store and the runs after it are those of memory/specs/Memory, whichever unheld frame it takes and whichever frame of the longest run it
// gives up first.
// It stands on `memory` for the definitions and their laws, on `reuse` for the frame that is taken, on `totals` for the frames that are kept, on `filling`
// for what is put into it, and on `granting` for the type of what a request leaves.
#![tactic(auto)]

ghost use Rattle.std.specs.Prelude.{◌≡◌};
ghost use Rattle.interface.specs.Requests.{write_code};
ghost use Rattle.table.specs.Store.{kept};
ghost use Rattle.memory.specs.Parts.{SomeRow, OfEveryRow, StoreStepped, TouchStepped};

use granting::Left;
use interface::{PageNo, Request};
use pages::Page;
use reuse::{give_up, unheld_frame};
use state::sandbox::Sandbox;
use table::page::VirtualPage;
use totals::Together;

// "Write": a page without a front first takes a frame, and then one byte of its front is stored.
pub fn write(
    b: Sandbox,
    all: Together,
    pool: &mut [u8],
    table: &mut [u16],
    image: &[u8],
    q: Request,
) -> Left
    requires code_value { q.code ≡ write_code }
    requires some_row { SomeRow image.now q b all (kept all.held pool.old table.old) }
    ensures { let before = kept all.held pool.old table.old in
        let after = kept result.held pool.new table.new in
        OfEveryRow image.now q b all before (λ w. StoreStepped image.now q w after result.runs) }
{
    let left = touch(b, all, pool, table, image, q);
    let s = q.sandbox as u8;
    let page = PageNo((q.p1 / PageNo::BYTES as u16) as u8);
    filling::store::store_byte(
        pool,
        table,
        s,
        page,
        (q.p1 % PageNo::BYTES as u16) as u8,
        q.p2 as u8,
    );
    left
}

// A page without a front takes a frame; one with a front keeps it.
fn touch(
    b: Sandbox,
    all: Together,
    pool: &mut [u8],
    table: &mut [u16],
    image: &[u8],
    q: Request,
) -> Left
    requires code_value { q.code ≡ write_code }
    requires some_row { SomeRow image.now q b all (kept all.held pool.old table.old) }
    ensures { let before = kept all.held pool.old table.old in
        let after = kept result.held pool.new table.new in
        OfEveryRow image.now q b all before (λ w. TouchStepped image.now q w after result.runs) }
{
    let s = q.sandbox as u8;
    let number = PageNo((q.p1 / PageNo::BYTES as u16) as u8);
    let runs = b.runs;
    let held = all.held;
    let front = table::entry::front(table, s, number);
    if front != 0 {
        return Left {
            held: held,
            runs: runs,
        };
    }
    let given = give_up(table, runs, all.kept, b.rec.share, s);
    let rest = given.kept;
    let left = given.runs;
    let frames = (pool.len() / Page::SIZE) as u8;
    let f = unheld_frame(held, rest, frames);
    let present = b.rec.present;
    let slot = present.slot(number);
    let page = VirtualPage {
        sandbox: s,
        number: number,
        slot: slot,
    };
    let h = filling::store::take(held, pool, table, image, page, f);
    Left {
        held: h,
        runs: left,
    }
}
