// What an accepted request makes of the lent memory and of the sandbox's runs, computed.
// It promises: the store and the runs after a request are those of memory/specs/Memory, whichever unheld frame a write takes and whichever frame of the
// longest run it gives up.
// A rewind is performed elsewhere (`rewind_call`), since its value is told by what it does.
// It stands on `memory` for the definitions and their laws, on `writing` and `freeing` for the frames, on `granting` for the runs, on `totals` for what the
// sandboxes have together, and on `rules` for what a request within its limits is.
#![tactic(auto)]

ghost use Rattle.std.specs.Prelude.{◌≡◌, ◌<◌, length};
ghost use Rattle.interface.specs.Numbers.{page_bytes, sandbox_count, pages_in};
ghost use Rattle.interface.specs.Requests.{map_code, write_code, rewind_code};
ghost use Rattle.table.specs.Store.{kept, Ranged};
ghost use Rattle.rules.specs.Ready.{Fit, Ready};
ghost use Rattle.memory.specs.Parts.{SomeRow, OfEveryRow, LeftBy, StoreStepped};

use frames::Held;
use freeing::store::free_range;
use granting::{Left, map};
use interface::{PageNo, Request};
use state::sandbox::Sandbox;
use table::entry::move_fronts;
use totals::Together;
use writing::write;

// The store and the runs after an accepted request that is no rewind.
pub fn store_after(
    b: Sandbox,
    all: Together,
    pool: &mut [u8],
    table: &mut [u16],
    image: &[u8],
    q: Request,
) -> Left
    requires fact { q.code ≡ rewind_code → ⊥ }
    requires some_row { SomeRow image.now q b all (kept all.held pool.old table.old) }
    ensures { let before = kept all.held pool.old table.old in
        let after = kept result.held pool.new table.new in
        OfEveryRow image.now q b all before (λ w. StoreStepped image.now q w after result.runs) }
{
    let code = q.code;
    let held = all.held;
    match code {
        Request::MAP => map(held, table, b, q),
        Request::WRITE => write(b, all, pool, table, image, q),
        _ => without_frames(held, pool, table, image, b, q),
    }
}

// The store and the runs after a request that takes no frame and restores none: any but a map, a write and a rewind.
fn without_frames(
    held: Held,
    pool: &mut [u8],
    table: &mut [u16],
    image: &[u8],
    b: Sandbox,
    q: Request,
) -> Left
    requires fact { q.code ≡ map_code → ⊥ }
    requires fact_2 { q.code ≡ write_code → ⊥ }
    requires fact_3 { q.code ≡ rewind_code → ⊥ }
    requires sandbox_bound { q.sandbox < sandbox_count }
    requires fit { Fit q }
    requires ready { Ready (pages_in (length image.now)) b.rec }
    requires ranged { Ranged page_bytes pool.old table.old }
    ensures { let before = kept held pool.old table.old in
        LeftBy image.now q b before (kept result.held pool.new table.new) result.runs }
{
    let code = q.code;
    let s = q.sandbox as u8;
    let runs = b.runs;
    match code {
        Request::UNMAP => {
            let h = free_range(held, pool, table, s, PageNo(q.p1 as u8), q.p2 as u8);
            Left {
                held: h,
                runs: runs,
            }
        }
        Request::SNAPSHOT => {
            move_fronts(table, s);
            Left {
                held: held,
                runs: runs,
            }
        }
        _ => Left {
            held: held,
            runs: runs,
        },
    }
}
