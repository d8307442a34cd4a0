// What a call on one sandbox is told of the others.
ghost use Rattle.std.specs.Prelude.{◌≡◌, get_or};
ghost use Rattle.interface.specs.Requests.{write_code};
ghost use Rattle.runs.specs.Row.{row};
ghost use Rattle.kept.specs.Test.{kept_to};
ghost use Rattle.state.specs.World.{closed_sandbox, shares_in};

use crate::{kept_marks, shares};
use frames::Held;
use interface::Request;
use state::sandbox::{Machine, Sandbox};

// The marks of the frames that entries name, those of all kept frames, and the shares together. The kept frames are put together only for a write, the one call
// that may take a frame, since all runs are looked at for them.
#[derive(Clone, Copy, Debug, PartialEq, Eq)]
pub struct Together {
    pub held: Held,
    pub kept: Held,
    pub shares: u16,
}

// What the four sandboxes have together, for this request.
pub fn put_together(sandboxes: [Sandbox; Machine::SANDBOXES], held: Held, q: Request) -> Together
    ensures held_value { result.held ≡ held }
    ensures shares_value { result.shares ≡ shares_in sandboxes }
    ensures kept_value { q.code ≡ write_code → result.kept ≡ (kept_to (λ s. row (get_or sandboxes s closed_sandbox).runs) 4).held }
{
    let shares = shares(sandboxes);
    if q.code != Request::WRITE {
        return Together {
            held,
            kept: Held::none(),
            shares,
        };
    }
    Together {
        held,
        kept: kept_marks(sandboxes).held,
        shares,
    }
}
