// The rows of "Turned back" that look at whether a sandbox is open and has a snapshot, as tests: 4, 5, 7 and 8. Beside them the page that an address names.
// It promises: each test is its row's condition in `interface`'s one table of refusals. No lent memory is touched here.
// It stands on `records` for the record, and on `codes` for the calls that need a snapshot.
#![tactic(auto)]

ghost use Rattle.std.specs.Prelude.{◌≡◌, ◌<◌};
ghost use Rattle.interface.specs.declared.answer.Refusal.TheVariants.{NotOpen, AlreadyOpen, SnapshotTaken, NoSnapshot};
ghost use Rattle.interface.specs.Numbers.{sandbox_count, address_count};
ghost use Rattle.interface.specs.Requests.{page_of};
ghost use Rattle.interface.specs.Refusals.{View, applies};
ghost use Rattle.records.specs.Record.{copy_of};

use interface::{PageNo, Request};
use records::Record;

// Row 4, of one of the four sandboxes: "but for open, not open".
pub fn not_open(opened: bool, q: Request) -> bool
    requires { q.sandbox < sandbox_count }
    ensures { (v : View) → v.opened ≡ opened → result ≡ applies v q NotOpen }
{
    (q.code != Request::OPEN) & !opened
}

// Row 5: "open of an open sandbox".
pub fn already_open(opened: bool, q: Request) -> bool
    ensures { (v : View) → v.opened ≡ opened → result ≡ applies v q AlreadyOpen }
{
    (q.code == Request::OPEN) & opened
}

// Row 7: "snapshot already taken".
pub fn snapshot_taken(b: Record, q: Request) -> bool
    ensures { (v : View) → v.copy ≡ copy_of b → result ≡ applies v q SnapshotTaken }
{
    (q.code == Request::SNAPSHOT) & b.taken
}

// Row 8: "rewind without a snapshot", and call 10.
pub fn no_snapshot(b: Record, q: Request) -> bool
    ensures { (v : View) → v.copy ≡ copy_of b → result ≡ applies v q NoSnapshot }
{
    codes::needs_snapshot(q) & !b.taken
}

// The page of an address.
pub fn page_of(q: Request) -> PageNo
    requires { q.p1 < address_count }
    ensures { result.0 ≡ page_of q }
{
    PageNo((usize::from(q.p1) / PageNo::BYTES) as u8)
}
