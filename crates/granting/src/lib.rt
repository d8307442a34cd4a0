// What a map takes of a sandbox's runs of kept frames (A3): "The first new pages get these frames as fronts, smallest frame number first".
// It promises: a map that takes a run gives its smallest frames to the first new pages without a byte of the pool, and no other map takes any; store and
// runs are those of specs/Granting, made of what kept/specs/Spare defines (`adopt_to`, `left_of`).
// It stands on `kept` for the definitions, on `runs` and `run_search` for the run that suits, on `frames` for the marks, on `table` for the store, and on
// `rules` for a map's first page.
#![tactic(auto)]

ghost use Rattle.std.specs.Prelude.{◌≡◌, List, ℕ, ◌+◌, ◌≤◌, ◌<◌, length, set};
ghost use Rattle.interface.specs.Numbers.{page_count, sandbox_count, table_entries, most_frames};
ghost use Rattle.interface.specs.Requests.{map_code};
ghost use Rattle.interface.specs.Outcome.{first_of};
ghost use Rattle.frames.specs.Frames.{mark, count_held, least_held};
ghost use Rattle.table.specs.Store.{kept as store_of};
ghost use Rattle.kept.specs.Spare.{left_of, adopt_to};
ghost use Rattle.areas.specs.Areas.{slots};
ghost use Rattle.rules.specs.Ready.{Fit, Ready};
ghost use Rattle.granting.specs.Granting.{map_adopts, map_runs};

use frames::{FrameNo, Held};
use interface::Request;
use marks::Marks;
use rules::first_of;
use run_search::fitting;
use runs::Runs;
use state::sandbox::Sandbox;

// What a request leaves: the marks of the frames that entries name, and the sandbox's runs.
#[derive(Clone, Copy, Debug, PartialEq, Eq)]
pub struct Left {
    pub held: Held,
    pub runs: Runs,
}

// "An anonymous map at 64 takes the shortest run at least as long as its pages; if none is that long, the longest. The first new pages get these frames as
// fronts, smallest frame number first; a surplus stays kept with its age." Kept frames are zero: no byte of the pool is touched, and no pool is lent.
pub fn map(held: Held, table: &mut [u16], b: Sandbox, q: Request) -> Left
    requires code_value { q.code ≡ map_code }
    requires sandbox_bound { q.sandbox < sandbox_count }
    requires fit { Fit q }
    requires by_index { (images : ℕ) × Ready images b.rec }
    requires p2_bound { first_of (slots b.rec.present) q + q.p2 ≤ page_count }
    requires table_len { length table.old ≡ table_entries }
    ensures by_index_2 { (pool : List ℕ) → let before = store_of held pool table.old in
        store_of result.held pool table.new ≡ map_adopts q b before }
    ensures runs { result.runs ≡ map_runs q b }
{
    if q.p1 != Request::ANY_PAGE || q.p3 != 0 {
        return Left { held, runs: b.runs };
    }
    let pages = q.p2 as u8;
    let place = fitting(b.runs, pages);
    let run = b.runs.at(place);
    let first = first_of(b.rec.present, q);
    let at = q.sandbox as usize * Marks::SANDBOX_ENTRIES + usize::from(first);
    let granted = grant(held, table, at, run, pages.min(run.count()));
    Left {
        held: granted.held,
        runs: b.runs.with(place, granted.rest),
    }
}

// The marks of the entries, and what is left of a run.
#[derive(Clone, Copy, Debug, PartialEq, Eq)]
struct Granted {
    held: Held,
    rest: Held,
}

// So many entries from `first` on take the smallest frames of a run, smallest first. The frames are zero already, so no byte is touched.
fn grant(held: Held, table: &mut [u16], first: usize, run: Held, n: u8) -> Granted
    requires n_in_bounds { first + n ≤ length table.old }
    requires n_bound { n ≤ count_held run }
    ensures by_index { (pool : List ℕ) →
        store_of result.held pool table.new ≡ adopt_to first run (store_of held pool table.old) n }
    ensures rest { result.rest ≡ left_of run n }
{
    let mut granted = Granted { held, rest: run };
    for i in 0..n {
        granted = grant_one(granted, table, first + usize::from(i));
    }
    granted
}

// One entry takes the smallest frame.
fn grant_one(g: Granted, table: &mut [u16], at: usize) -> Granted
    requires at_in_bounds { at < length table.old }
    requires rest_bound { least_held g.rest < most_frames }
    ensures held_value { result.held ≡ mark g.held (least_held g.rest) 1 }
    ensures rest { result.rest ≡ mark g.rest (least_held g.rest) 0 }
    ensures entry { table.new ≡ set table.old at (least_held g.rest + 1) }
{
    let f = FrameNo(g.rest.least());
    table[at] = u16::from(f.0) + 1;
    Granted {
        held: g.held.with(f),
        rest: g.rest.without(f),
    }
}
