// The decision: the rows of "Turned back" from 4 on, in their order. No lent memory is touched here.
// It promises: `decide` gives the number of `interface`'s one table of refusals, for any call on a sandbox with a sound record, or the areas afterwards.
// It stands on `rows` for the tests of rows 4, 5, 7 and 8, on `limits` for row 6, and on `page_decision` for the rows from 9 on and for what results.
#![tactic(auto)]

ghost use Rattle.std.specs.Prelude.{◌≡◌, true, ◌<◌};
ghost use Rattle.interface.specs.Numbers.{sandbox_count};
ghost use Rattle.interface.specs.Requests.{is_call};
ghost use Rattle.records.specs.Record.{view_from};
ghost use Rattle.rules.specs.Ready.{Ready};
ghost use Rattle.page_decision.specs.Decision.{Decided};

use areas::area::Areas;
use interface::{Refusal, Request};
use limits::within_limits;
use page_decision::decide_pages;
use records::Record;
use rows::{already_open, no_snapshot, not_open, snapshot_taken};

// What becomes of a call on a sandbox with this record, over so many `frames` of the pool and pages of the image, where the shares together are these: the
// areas that an accepted request leaves, or why it is refused.
pub fn decide(b: Record, frames: u8, images: u8, shares: u16, q: Request) -> Result<Areas, Refusal>
    requires q_value { is_call q ≡ true }
    requires sandbox_bound { q.sandbox < sandbox_count }
    requires ready { Ready images b }
    ensures { Decided (view_from true frames images shares b) q b result }
{
    if not_open(b.opened, q) {
        return Err(Refusal::NotOpen);
    }
    if already_open(b.opened, q) {
        return Err(Refusal::AlreadyOpen);
    }
    if !within_limits(q, images) {
        return Err(Refusal::OutsideLimits);
    }
    let taken = snapshot_taken(b, q);
    if taken {
        return Err(Refusal::SnapshotTaken);
    }
    if no_snapshot(b, q) {
        return Err(Refusal::NoSnapshot);
    }
    decide_pages(b, frames, images, shares, q)
}
