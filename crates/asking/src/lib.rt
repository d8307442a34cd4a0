// What a line of a roll asks of a state of which it is known whether it is sound.
// It promises: rows 1 to 3, and row 4 of a sandbox past the four, are told without a look at a sandbox (`asked_by`); of a line that is turned back by one of
// them, and of one that is not, proofs/AskedLaws says what is known.
// It stands on `lines` for what a line says, on `codes` for which codes are calls, and on `roll` for what a line is turned into.
#![tactic(auto)]

ghost use Rattle.std.specs.Prelude.{◌≡◌};
ghost use Rattle.asking.specs.Asked.{asked_by};

use interface::{Refusal, Request};
use lines::Line;
use state::sandbox::Machine;

// What a line asks: a call on one of the four sandboxes of a sound state, or nothing that can be performed, and why. Rows 1 to 3, and row 4 of a sandbox past
// the four, are what is refused without a look at a sandbox. Whether the state is sound is known.
pub fn ask(sound: bool, line: Line) -> Result<Request, Refusal>
    ensures { result ≡ asked_by sound line }
{
    let Line::Call(q) = line else {
        return Err(Refusal::Malformed);
    };
    if !codes::is_call(q) {
        return Err(Refusal::NoSuchCall);
    }
    if !sound {
        return Err(Refusal::Unsound);
    }
    if q.sandbox as usize >= Machine::SANDBOXES {
        return Err(Refusal::NotOpen);
    }
    Ok(q)
}
