// Whether the output has room for the reply to every line of a roll, and how many lines are then answered: all of them, or none.
// It promises both as `lines` counts lines (`room_for`). It stands on `lines`.
#![tactic(auto)]

ghost use Rattle.std.specs.Prelude.{◌≡◌};
ghost use Rattle.room.specs.Rooms.{room_for};

use lines::{Line, lines_of};

// The lines of a roll of so many bytes, where so many bytes of output have room for the reply to each of them.
#[tactic(auto, unfolding(lines::specs::Lines::lines_of))]
pub fn room_for(roll: usize, out: usize) -> Option<usize>
    ensures { result ≡ room_for roll out }
{
    let lines = lines_of(roll);
    if out < lines * Line::REPLY {
        return None;
    }
    Some(lines)
}
