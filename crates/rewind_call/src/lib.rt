// A rewind on one sandbox: decided by the few rows that it can meet, and performed without a look at the other sandboxes.
// It promises: with the sandbox put back in its place, what `rewind_sandbox` leaves and answers is the step of any sound state of which it was handed a
// sandbox.
// It stands on `few_rows` for what is refused, on `gathering` for the runs, on `rewinding` for the lent memory, on `records` and `rules` for the sandbox's
// record, and on `step` for what a call is.
#![tactic(auto)]

ghost use Rattle.std.specs.Prelude.{◌≡◌, List, ◌<◌};
ghost use Rattle.interface.specs.Numbers.{sandbox_count};
ghost use Rattle.interface.specs.Requests.{rewind_code};
ghost use Rattle.interface.specs.Answers.{answered};
ghost use Rattle.table.specs.Store.{kept};
ghost use Rattle.state.specs.declared.sandbox.Sandbox.{Sandbox as Owner};
ghost use Rattle.totals.specs.declared.together.Together.{Together};
ghost use Rattle.step.specs.Step.{Stepped};
ghost use Rattle.step.specs.Acted.{world_from, Stands, put_back};

use few_rows::unpaged::decide;
use frames::Held;
use gathering::gathered;
use interface::{Answer, PageNo, Request};
use rewinding::rewind;
use state::sandbox::Sandbox;
use step::Acted;

// "Rewind puts the whole copy in place": the present areas become the snapshot's. The runs are found from the entries that there were. "Rewind answers the
// number of committed pages still mapped whose bytes differed from the snapshot" (A4).
pub fn rewind_sandbox(
    b: Sandbox,
    held: Held,
    pool: &mut [u8],
    table: &mut [u16],
    image: &[u8],
    q: Request,
) -> Acted
    requires code_value { q.code ≡ rewind_code }
    requires sandbox_bound { q.sandbox < sandbox_count }
    requires stands { (row : List Owner) × ((all : Together) × Stands image.now q b all (kept held pool.old table.old) row) }
    ensures { (row : List Owner) (all : Together) →
        let before = kept held pool.old table.old in
        let after = kept result.held pool.new table.new in
        Stands image.now q b all before row
        → Stepped image.now (world_from row before) q
        (record { answer = answered result.answer; world = put_back q result.sandbox row after }) }
{
    let rec = b.rec;
    let images = (image.len() / PageNo::BYTES) as u8;
    match decide(rec, images, q) {
        Err(why) => Acted {
            sandbox: b,
            held,
            answer: Err(why),
        },
        Ok(()) => {
            let s = q.sandbox as u8;
            let left = gathered(table, rec.present, b.runs, s);
            let restored = rewind(held, pool, table, image, rec, s);
            let after = rec.with_present(rec.snapshot);
            Acted {
                sandbox: Sandbox {
                    rec: after,
                    runs: left,
                },
                held: restored.held,
                answer: Ok(u32::from(restored.changed)),
            }
        }
    }
}
