// Which run of kept frames is chosen by its length (A3): the longest, the shortest, or the one that suits so many pages.
// It promises: the place found is that of the definition, `best` by a test of two lengths, and one of the eight.
// It stands on `runs` for the runs in their places, and on `run_choice` for which one a map takes and which one a write gives up from.
#![tactic(auto)]

ghost use Rattle.std.specs.Prelude.{◌≡◌, ℕ, Bool, ◌<◌};
ghost use Rattle.basics.specs.Rows.{best, no_longer, fitter};
ghost use Rattle.run_choice.specs.Runs.{longest_run, run_for};
ghost use Rattle.runs.specs.Row.{lengths_of};
ghost use Rattle.run_search.specs.Search.{Answers};

use runs::Runs;

// The place of the shortest run, of equals the newest.
pub fn shortest(runs: Runs) -> u8
    ensures value { result ≡ best no_longer (lengths_of runs) 8 }
    ensures low { result < 8 }
{
    best(runs, |new, old| new <= old)
}

// The place of the longest run, of equals the oldest.
#[tactic(auto, unfolding(run_choice::specs::Runs::longest_run))]
pub fn longest(runs: Runs) -> u8
    ensures value { result ≡ longest_run (lengths_of runs) }
    ensures low { result < 8 }
{
    best(runs, |new, old| old < new)
}

// The place of the shortest run that is at least as long as so many pages, or of the longest; of equals the oldest.
#[tactic(auto, unfolding(run_choice::specs::Runs::run_for))]
pub fn fitting(runs: Runs, pages: u8) -> u8
    ensures value { result ≡ run_for pages (lengths_of runs) }
    ensures low { result < 8 }
{
    best(runs, |new, old| is_fitter(pages, new, old))
}

// The place of the best run by a test of two lengths, whether a run of the first is better than one of the second.
fn best<F: Fn(u8, u8) -> bool>(runs: Runs, is_better: F) -> u8
    requires { F.IsAlwaysCallable is_better }
    ensures value { (test : ℕ → ℕ → Bool) → Answers (F.post is_better) test → result ≡ best test (lengths_of runs) 8 }
    ensures low { result < 8 }
{
    let mut place = 0;
    let mut length = runs.list[0].count();
    for (i, run) in runs.list.iter().enumerate() {
        let frames = run.count();
        if is_better(frames, length) {
            place = i as u8;
            length = frames;
        }
    }
    place
}

// Whether a run of the first length suits so many pages better than one of the second.
fn is_fitter(pages: u8, new: u8, old: u8) -> bool
    ensures { result ≡ fitter pages new old }
{
    if pages <= new {
        return (new < old) | (old < pages);
    }
    old < new
}
