// A new run of kept frames competes for the eight places (A3).
// It promises: the runs are those of the definition `pushed` (runs/specs/Row.antt): the newcomer takes the place of the shortest, of equals the newest, unless
// it is no longer than that, and the others keep their order.
// It stands on `runs` for the runs in their places, and on `run_search` for the shortest.
#![tactic(auto)]

ghost use Rattle.std.specs.Prelude.{◌≡◌, ◌<◌};
ghost use Rattle.runs.specs.Row.{moved_runs, pushed};

use frames::Held;
use run_search::shortest;
use runs::Runs;

// A new run, the newest: it takes the place of the shortest, of equals the newest, unless it is no longer than that.
// A run of no frame changes nothing, and no place is looked for; nor is one where the last is empty, for none is shorter and newer.
pub fn push(runs: Runs, run: Held) -> Runs
    ensures { result ≡ pushed runs run }
{
    let frames = run.count();
    if frames == 0 {
        return runs;
    }
    if runs.is_empty(Runs::LAST) {
        return runs.with(Runs::LAST, run);
    }
    let place = shortest(runs);
    if frames <= runs.length(place) {
        return runs;
    }
    moved_up(runs, place, run)
}

// The runs after a place move up by one, and this one comes last.
fn moved_up(mut runs: Runs, place: u8, run: Held) -> Runs
    requires { place < 8 }
    ensures { result ≡ moved_runs place run runs }
{
    for i in place..Runs::LAST {
        runs = runs.with(i, runs.at(i + 1));
    }
    runs.with(Runs::LAST, run)
}
