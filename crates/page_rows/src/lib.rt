// The rows of "Turned back" that look at the mapped pages of a sandbox, as tests: 9 to 12.
// It promises: each test is its row's condition in `interface`'s one table of refusals. No lent memory is touched here.
// It stands on `areas`, `area_counts` and `area_gaps` for the pages, on `rules` for what a request within its limits is, and on `rows` for the page that an
// address names.
#![tactic(auto)]

ghost use Rattle.std.specs.Prelude.{◌≡◌};
ghost use Rattle.interface.specs.declared.answer.Refusal.TheVariants.{NotMapped, AlreadyMapped, NoGap, NotWritable};
ghost use Rattle.interface.specs.Refusals.{View, applies};
ghost use Rattle.areas.specs.Areas.{slots, Near};
ghost use Rattle.areas.specs.Walk.{Formed};
ghost use Rattle.rules.specs.Ready.{Fit};

use area_counts::all_are;
use area_gaps::lowest_gap;
use areas::area::Areas;
use interface::{Attributes, PageNo, Request};
use rows::page_of;
use slots::{is_mapped, rights_at};

// Row 9: "Refusal 9 remains for protect, read and write." An unmap passes over unmapped pages.
pub fn not_mapped(present: Areas, q: Request) -> bool
    requires formed { Formed present }
    requires fit { Fit q }
    ensures { (v : View) → v.slots ≡ slots present → result ≡ applies v q NotMapped }
{
    if q.code == Request::PROTECT {
        return !all_are(present, true, PageNo(q.p1 as u8), q.p2 as u8);
    }
    if (q.code == Request::READ) | (q.code == Request::WRITE) {
        return !is_mapped(present.slot(page_of(q)));
    }
    false
}

// Row 10: "map at a named page meets a mapped page".
pub fn already_mapped(present: Areas, q: Request) -> bool
    requires formed { Formed present }
    requires fit { Fit q }
    ensures { (v : View) → v.slots ≡ slots present → result ≡ applies v q AlreadyMapped }
{
    if (q.code != Request::MAP) | (q.p1 == Request::ANY_PAGE) {
        return false;
    }
    !all_are(present, false, PageNo(q.p1 as u8), q.p2 as u8)
}

// Row 11: "map at 64 and no run of p2 unmapped pages exists".
pub fn no_gap(present: Areas, q: Request) -> bool
    requires formed { Formed present }
    requires fit { Fit q }
    ensures { (v : View) → v.slots ≡ slots present → result ≡ applies v q NoGap }
{
    if (q.code != Request::MAP) | (q.p1 != Request::ANY_PAGE) {
        return false;
    }
    lowest_gap(present, q.p2 as u8) == Areas::PAGES
}

// Row 12: "write without the write right".
pub fn not_writable(present: Areas, q: Request) -> bool
    requires near { Near present.list }
    requires fit { Fit q }
    ensures { (v : View) → v.slots ≡ slots present → result ≡ applies v q NotWritable }
{
    if q.code != Request::WRITE {
        return false;
    }
    rights_at(present.slot(page_of(q))) != Attributes::READ_WRITE
}
