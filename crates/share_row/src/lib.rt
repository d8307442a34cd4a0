// Row 13 of "Turned back" as a test: whether the shares would exceed the pool, or the charge the share.
// It promises: the test is the row's condition in `interface`'s one table of refusals. No lent memory is touched here.
// It stands on `records` for the record and its charge, on `area_counts` for the pages counted, and on `rules` for what the rows before it have let pass.
#![tactic(auto)]

ghost use Rattle.std.specs.Prelude.{◌≡◌, true, ℕ};
ghost use Rattle.interface.specs.declared.answer.Refusal.TheVariants.{ShareExceeded};
ghost use Rattle.interface.specs.Refusals.{applies};
ghost use Rattle.records.specs.Record.{view_from};
ghost use Rattle.rules.specs.Ready.{Ready, Passed};

use area_counts::mapped_pages;
use interface::Request;
use records::Record;

// Row 13: "shares would exceed the pool, or the charge the share". The charge of what would result is counted from the present one: a map adds its
// pages, a snapshot charges each mapped page twice, and no other call can raise it.
pub fn share_exceeded(b: Record, frames: u8, shares: u16, q: Request) -> bool
    requires { (images : ℕ) × Ready images b }
    ensures { (images : ℕ) → let v = view_from true frames images shares b in
        Passed v q → result ≡ applies v q ShareExceeded }
{
    match q.code {
        Request::OPEN => u32::from(frames) < u32::from(shares) + u32::from(q.p1),
        Request::MAP => u32::from(b.share) < u32::from(b.charge()) + u32::from(q.p2),
        Request::SNAPSHOT => u32::from(b.share) < 2 * u32::from(mapped_pages(b.present)),
        _ => false,
    }
}
