// A call on one sandbox that is no rewind: what is decided of it, and, where it is accepted, performed.
// It promises: with the sandbox put back in its place, what `act` leaves and answers is the step of any sound state of which it was handed a sandbox, the
// frames that a write takes and gives up being the only thing left open.
// A rewind is performed by `rewind_call`.
// It stands on `decision` for what is refused, on `effects` and `values` for the lent memory, the runs and the value, on `rules` for the sandbox's record, and
// on `totals` for what it is told of the other sandboxes.
#![tactic(auto)]

ghost use Rattle.std.specs.Prelude.{◌≡◌, true, List, ◌<◌};
ghost use Rattle.interface.specs.Numbers.{sandbox_count};
ghost use Rattle.interface.specs.Requests.{is_call, rewind_code};
ghost use Rattle.interface.specs.Answers.{answered};
ghost use Rattle.table.specs.Store.{kept};
ghost use Rattle.state.specs.declared.sandbox.Sandbox.{Sandbox as Owner};
ghost use Rattle.step.specs.Step.{Stepped};
ghost use Rattle.step.specs.Acted.{world_from, Stands, put_back};

use decision::decide;
use effects::store_after;
use interface::{Answer, PageNo, Request};
use rules::record_after;
use state::sandbox::Sandbox;
use step::Acted;
use totals::Together;
use values::value_of;

// A call on a sandbox of a sound state. An accepted one has its value worked out first, then the store and the runs, then the sandbox's record.
pub fn act(
    b: Sandbox,
    all: Together,
    pool: &mut [u8],
    table: &mut [u16],
    image: &[u8],
    q: Request,
) -> Acted
    requires q_value { is_call q ≡ true }
    requires fact { q.code ≡ rewind_code → ⊥ }
    requires sandbox_bound { q.sandbox < sandbox_count }
    requires stands { (row : List Owner) × Stands image.now q b all (kept all.held pool.old table.old) row }
    ensures { (row : List Owner) →
        let before = kept all.held pool.old table.old in
        let after = kept result.held pool.new table.new in
        Stands image.now q b all before row
        → Stepped image.now (world_from row before) q
        (record { answer = answered result.answer; world = put_back q result.sandbox row after }) }
{
    let frames = (pool.len() / PageNo::BYTES) as u8;
    let images = (image.len() / PageNo::BYTES) as u8;
    match decide(b.rec, frames, images, all.shares, q) {
        Err(why) => Acted {
            sandbox: b,
            held: all.held,
            answer: Err(why),
        },
        Ok(areas) => {
            let value = value_of(pool, table, image, b, q);
            let left = store_after(b, all, pool, table, image, q);
            let after = record_after(b.rec, q, areas);
            Acted {
                sandbox: Sandbox {
                    rec: after,
                    runs: left.runs,
                },
                held: left.held,
                answer: Ok(value),
            }
        }
    }
}
