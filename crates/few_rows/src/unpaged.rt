// Whether a call that names no page and packs no areas anew is refused.
ghost use Rattle.std.specs.Prelude.{◌≡◌, true, ℕ, ◌<◌};
ghost use Rattle.interface.specs.Answers.{number_of};
ghost use Rattle.interface.specs.Numbers.{sandbox_count};
ghost use Rattle.interface.specs.Refusals.{refusal};
ghost use Rattle.records.specs.Record.{view_from};
ghost use Rattle.rules.specs.Ready.{Ready};
ghost use Rattle.few_rows.specs.Decided.{names_no_page};

use interface::{Refusal, Request};
use limits::within_limits;
use records::Record;
use rows::{no_snapshot, not_open};

// Rows 4, 6 and 8, the only ones that a rewind, a report or a comparison can meet in a sound state.
pub fn decide(b: Record, images: u8, q: Request) -> Result<(), Refusal>
    requires q_value { names_no_page q ≡ true }
    requires sandbox_bound { q.sandbox < sandbox_count }
    requires ready { Ready images b }
    ensures { (frames shares : ℕ) → number_of result ≡ refusal (view_from true frames images shares b) q }
{
    if not_open(b.opened, q) {
        return Err(Refusal::NotOpen);
    }
    if !within_limits(q, images) {
        return Err(Refusal::OutsideLimits);
    }
    if no_snapshot(b, q) {
        return Err(Refusal::NoSnapshot);
    }
    Ok(())
}
