// The start: a fresh state over a cleared pool and table.
// It promises: the state, pool and table of specs/Start in `state`, and its answer; where a length is wrong, nothing is cleared.
// It stands on `state` for the fresh state and on `freeing` for the store that is cleared.
#![tactic(auto)]

ghost use Rattle.std.specs.Prelude.{◌≡◌, eqb};
ghost use Rattle.interface.specs.Answers.{number_of};
ghost use Rattle.state.specs.World.{world_of};
ghost use Rattle.state.specs.Start.{started_by, start_answer};

use interface::{Answer, Refusal};
use state::lengths::lengths_ok;
use state::sandbox::Machine;

// What a start gives: a state, fresh either way, and its answer.
#[derive(Clone, Copy)]
pub struct Started {
    pub machine: Machine,
    pub answer: Answer,
}

// "starting clears pool and table, or, where a length is wrong, is refusal 3 and clears nothing,
// though the state it gives is fresh"
pub fn start(pool: &mut [u8], table: &mut [u16], image: &[u8]) -> Started
    ensures answer_value { result.answer ≡ start_answer pool.old table.old image.now }
    ensures world { world_of result.machine pool.new table.new
        ≡ started_by pool.old table.old image.now }
{
    let fresh = Machine::fresh();
    if !lengths_ok(pool.len(), table.len(), image.len()) {
        return Started {
            machine: fresh,
            answer: Err(Refusal::Unsound),
        };
    }
    Started {
        machine: Machine {
            held: freeing::store::start(pool, table),
            ..fresh
        },
        answer: Ok(0),
    }
}

// Whether a start that answers so was accepted; then the state that it gives is sound.
pub fn accepted(answer: Answer) -> bool
    ensures { result ≡ eqb (number_of answer) 0 }
{
    answer.is_ok()
}
