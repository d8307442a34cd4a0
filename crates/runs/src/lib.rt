// The runs of frames that a sandbox keeps for the maps of its next request (A3), by their places.
// It promises: each method's outcome is a definition of specs/Row.antt, which goes by the lengths of the runs in the order
// of their ages. Which run is chosen is found in `run_search`, a new one pushed in `run_push`.
// It stands on `frames` for the frames of a run.
#![tactic(auto)]

ghost use Rattle.std.specs.Prelude.{◌≡◌, ◌≤◌, ◌<◌};
ghost use Rattle.basics.specs.Ranges.{sum, every};
ghost use Rattle.frames.specs.Frames.{none_held, same_held, count_held};
ghost use Rattle.interface.specs.Numbers.{most_frames};
ghost use Rattle.runs.specs.Row.{row, lengths_of, no_runs, with_run_at};

use frames::Held;

// "At most 8 runs are kept": the oldest first. A place without a frame is no run, and may stand anywhere.
#[derive(Clone, Copy, Debug, PartialEq, Eq)]
pub struct Runs {
    pub list: [Held; Runs::PLACES],
}

impl Runs {
    pub const PLACES: usize = 8;

    // The number of places, and the last place, as a place is numbered.
    pub const END: u8 = Runs::PLACES as u8;

    pub const LAST: u8 = Runs::END - 1;

    // No run.
    pub fn none() -> Runs
        ensures { result ≡ no_runs }
    {
        Runs {
            list: [Held::none(); Runs::PLACES],
        }
    }

    // The run in a place.
    pub fn at(self, place: u8) -> Held
        requires { place < 8 }
        ensures { result ≡ row self place }
    {
        self.list[usize::from(place)]
    }

    // The same runs, but for one place.
    pub fn with(mut self, place: u8, run: Held) -> Runs
        requires { place < 8 }
        ensures { result ≡ with_run_at place run self }
    {
        self.list[usize::from(place)] = run;
        self
    }

    // How many frames are kept; most places have none.
    pub fn kept(self) -> u16
        ensures value { result ≡ sum (lengths_of self) 8 }
        ensures small { result ≤ 1024 }
    {
        let mut n = 0;
        for run in self.list {
            n += u16::from(frames_in(run));
        }
        n
    }

    // The length of the run in a place.
    pub fn length(self, place: u8) -> u8
        requires { place < 8 }
        ensures value { result ≡ lengths_of self place }
        ensures small { result ≤ most_frames }
    {
        frames_in(self.at(place))
    }

    // Whether no run is kept. All places are looked at, which takes no branch.
    pub fn is_none(self) -> bool
        ensures { result ≡ every (λ i. same_held (row self i) none_held) 0 8 }
    {
        let mut none = true;
        for run in self.list {
            none &= run == Held::none();
        }
        none
    }

    // Whether there is no run in a place.
    pub fn is_empty(self, place: u8) -> bool
        requires { place < 8 }
        ensures { result ≡ same_held (row self place) none_held }
    {
        self.at(place) == Held::none()
    }
}

// How many frames a run has. One without a frame is not counted through.
fn frames_in(run: Held) -> u8
    ensures value { result ≡ count_held run }
    ensures small { result ≤ most_frames }
{
    if run == Held::none() {
        return 0;
    }
    run.count()
}
