// Whether a read or a write is refused, with one look-up of its page.
ghost use Rattle.std.specs.Prelude.{◌≡◌, true, ◌||◌, ℕ, ◌<◌};
ghost use Rattle.interface.specs.Numbers.{sandbox_count};
ghost use Rattle.interface.specs.Requests.{◌is◌, read_code, write_code};
ghost use Rattle.records.specs.Record.{view_from};
ghost use Rattle.rules.specs.Ready.{Ready};
ghost use Rattle.few_rows.specs.Decided.{Decides};

use interface::{Attributes, Refusal, Request, Slot};
use limits::within_limits;
use records::Record;
use rows::{not_open, page_of};
use slots::{is_mapped, rights_at};

// Rows 4, 6, 9 and 12, the only ones that a read or a write can meet in a sound state: why it is refused, or what stands at the page of
// an accepted one.
pub fn decide(b: Record, images: u8, q: Request) -> Result<Slot, Refusal>
    requires is_value { (q is read_code || q is write_code) ≡ true }
    requires sandbox_bound { q.sandbox < sandbox_count }
    requires ready { Ready images b }
    ensures { (frames shares : ℕ) → Decides (view_from true frames images shares b) q result }
{
    if not_open(b.opened, q) {
        return Err(Refusal::NotOpen);
    }
    if !within_limits(q, images) {
        return Err(Refusal::OutsideLimits);
    }
    let slot = b.present.slot(page_of(q));
    if !is_mapped(slot) {
        return Err(Refusal::NotMapped);
    }
    if (q.code == Request::WRITE) & (rights_at(slot) != Attributes::READ_WRITE) {
        return Err(Refusal::NotWritable);
    }
    Ok(slot)
}
