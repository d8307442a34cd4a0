// What the four sandboxes have together: their shares, and the frames that their runs keep.
// It promises: the sum of the shares, and the marks of kept frames as a pass over the runs finds them (kept/specs/Test).
// It stands on `state` for the sandboxes, on `kept` for the runs of one sandbox, on `marks` and on `frames` for the held marks.
#![tactic(auto)]

ghost use Rattle.std.specs.Prelude.{◌≡◌, ◌≤◌, get_or};
ghost use Rattle.basics.specs.Ranges.{sum};
ghost use Rattle.runs.specs.Row.{row};
ghost use Rattle.kept.specs.Test.{kept_to};
ghost use Rattle.state.specs.World.{closed_sandbox};

use frames::Held;
use marks::Marks;
use state::sandbox::{Machine, Sandbox};

pub mod together;

pub use together::{Together, put_together};

// "the shares together"
pub fn shares(sandboxes: [Sandbox; Machine::SANDBOXES]) -> u16
    ensures value { result ≡ sum (λ s. (get_or sandboxes s closed_sandbox).rec.share) 4 }
    ensures small { result ≤ 1020 }
{
    let mut n = 0;
    for b in sandboxes {
        // `u16::from` was tried: behind it the proof no longer knows that a share is a byte.
        n += b.rec.share as u16;
    }
    n
}

// The frames that the runs of all sandboxes keep.
pub fn kept_marks(sandboxes: [Sandbox; Machine::SANDBOXES]) -> Marks
    ensures { result ≡ kept_to (λ s. row (get_or sandboxes s closed_sandbox).runs) 4 }
{
    let mut found = Marks {
        good: true,
        held: Held::none(),
    };
    for sandbox in sandboxes {
        found = kept_soundness::add_runs(found, sandbox.runs);
    }
    found
}
