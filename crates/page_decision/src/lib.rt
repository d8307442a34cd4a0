// The decision's second half: the rows of "Turned back" from 9 on, which look at pages, shares and areas, in their order. No lent memory is touched here.
// It promises: `decide_pages` gives the number of `interface`'s one table of refusals, for any call that no row before 9 refuses, on a sandbox with a sound
// record, or the areas afterwards.
// It stands on `page_rows` and `share_row` for the tests of the rows, and on `rules` for what results.
#![tactic(auto)]

ghost use Rattle.std.specs.Prelude.{◌≡◌, true};
ghost use Rattle.interface.specs.declared.answer.Refusal.TheVariants.{NotMapped};
ghost use Rattle.records.specs.Record.{view_from};
ghost use Rattle.rules.specs.Ready.{Ready};
ghost use Rattle.page_decision.specs.Earlier.{NoneBefore};
ghost use Rattle.page_decision.specs.Decision.{Decided};

use areas::area::Areas;
use interface::{Refusal, Request};
use page_rows::{already_mapped, no_gap, not_mapped, not_writable};
use records::Record;
use rules::packed_after;
use share_row::share_exceeded;

// What becomes of a call on a sandbox with this record, over so many `frames` of the pool and pages of the image, where the shares together are these, and
// where no row before 9 applies: the areas that an accepted request leaves, or why it is refused.
pub fn decide_pages(
    b: Record,
    frames: u8,
    images: u8,
    shares: u16,
    q: Request,
) -> Result<Areas, Refusal>
    requires none_before { NoneBefore NotMapped (view_from true frames images shares b) q }
    requires ready { Ready images b }
    ensures { Decided (view_from true frames images shares b) q b result }
{
    let present = b.present;
    if not_mapped(present, q) {
        return Err(Refusal::NotMapped);
    }
    if already_mapped(present, q) {
        return Err(Refusal::AlreadyMapped);
    }
    if no_gap(present, q) {
        return Err(Refusal::NoGap);
    }
    if not_writable(present, q) {
        return Err(Refusal::NotWritable);
    }
    if share_exceeded(b, frames, shares, q) {
        return Err(Refusal::ShareExceeded);
    }
    let packed = packed_after(b, q);
    if !packed.fits {
        return Err(Refusal::TooManyAreas);
    }
    Ok(packed.areas)
}
