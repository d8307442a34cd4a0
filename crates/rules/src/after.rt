// What an accepted request makes of its sandbox's record.
ghost use Rattle.std.specs.Prelude.{◌≡◌, true, ℕ};
ghost use Rattle.interface.specs.Requests.{map_code, backing_of};
ghost use Rattle.interface.specs.Outcome.{first_of, new_page, share_after};
ghost use Rattle.areas.specs.Areas.{slots};
ghost use Rattle.areas.specs.Walk.{Formed};
ghost use Rattle.rules.specs.After.{packed_after, taken_after, snapshot_after, record_with};
ghost use Rattle.rules.specs.Ready.{Fit, Ready};

use area_gaps::lowest_gap;
use areas::area::Areas;
use interface::{Attributes, Backing, ImagePageNo, PageNo, Request};
use packing::pack::{Change, Packed};
use records::Record;
use repacking::repack;

// The areas that result, and whether they fit.
pub fn packed_after(b: Record, q: Request) -> Packed
    requires by_index { (images : ℕ) × Ready images b }
    requires fit { Fit q }
    ensures { result ≡ packed_after q b }
{
    match q.code {
        Request::MAP => {
            let first = first_of(b.present, q);
            repack(
                b.present,
                PageNo(first),
                q.p2 as u8,
                Change::Map(new_page(q)),
            )
        }
        Request::UNMAP => repack(b.present, PageNo(q.p1 as u8), q.p2 as u8, Change::Unmap),
        Request::PROTECT => {
            let change = Change::Protect(q.p3 as u8);
            repack(b.present, PageNo(q.p1 as u8), q.p2 as u8, change)
        }
        Request::SNAPSHOT => repack(b.present, PageNo(0), Areas::PAGES, Change::Commit),
        Request::REWIND => whole(b.snapshot),
        _ => whole(b.present),
    }
}

// Areas that were not packed anew.
fn whole(areas: Areas) -> Packed
    ensures { result ≡ record { areas = areas; fits = true } }
{
    Packed { areas, fits: true }
}

// The first page of a map.
#[tactic(auto, unfolding(interface::specs::Outcome::first_of))]
pub fn first_of(present: Areas, q: Request) -> u8
    requires formed { Formed present }
    requires code_value { q.code ≡ map_code }
    requires fit { Fit q }
    ensures { result ≡ first_of (slots present) q }
{
    if q.p1 == Request::ANY_PAGE {
        return lowest_gap(present, q.p2 as u8);
    }
    q.p1 as u8
}

// What a map makes of its first page.
fn new_page(q: Request) -> Attributes
    requires code_value { q.code ≡ map_code }
    requires fit { Fit q }
    ensures { result ≡ new_page q }
{
    Attributes {
        rights: q.p5 as u8,
        committed: false,
        backing: backing_of(q),
    }
}

fn backing_of(q: Request) -> Backing
    requires code_value { q.code ≡ map_code }
    requires fit { Fit q }
    ensures { result ≡ backing_of q }
{
    if q.p3 == Request::ANONYMOUS {
        return Backing::Anonymous;
    }
    Backing::Image(ImagePageNo(q.p4 as u8))
}

// The record after an accepted request, whose areas are these.
pub fn record_after(b: Record, q: Request, present: Areas) -> Record
    requires { Fit q }
    ensures { result ≡ record_with q present b }
{
    b.with_snapshot(snapshot_after(q, present, b.snapshot))
        .with_taken(taken_after(q, b.taken))
        .with_present(present)
        .with_share(share_after(q, b.share))
        .with_opened(true)
}

#[tactic(auto, unfolding(crate::specs::After::snapshot_after))]
fn snapshot_after(q: Request, present: Areas, snapshot: Areas) -> Areas
    ensures { result ≡ snapshot_after q present snapshot }
{
    if q.code == Request::SNAPSHOT {
        return present;
    }
    snapshot
}

#[tactic(auto, unfolding(crate::specs::After::taken_after))]
fn taken_after(q: Request, taken: bool) -> bool
    ensures { result ≡ taken_after q taken }
{
    if q.code == Request::SNAPSHOT {
        return true;
    }
    taken
}

fn share_after(q: Request, share: u8) -> u8
    requires { Fit q }
    ensures { result ≡ share_after q share }
{
    if q.code == Request::OPEN {
        return q.p1 as u8;
    }
    share
}
