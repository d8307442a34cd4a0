// A start over a state that the caller keeps as bytes beside its pool and table.
// It asks nothing of what is lent: a wrong length is refusal 3. It promises that a start does what `host_calls` says (specs/Calls there: `start_hands`).
// It stands on `starting` for the start, on `layout` and `encoding` for the bytes and on `host_calls` for what is promised.
#![tactic(auto)]

ghost use Rattle.std.specs.Prelude.{◌≡◌};
ghost use Rattle.host_calls.specs.Calls.{handed, start_number, start_hands};

use encoding::encode;
use host_calls::Told;
use layout::size::Size;
use starting::start;

// Starts a machine: writes a fresh state and clears pool and table. Answers 0, or 3 where a length is wrong: then pool and table stay as they are, and so does
// `state` where the wrong length is its own.
pub fn start_over(image: &[u8], state: &mut [u8], pool: &mut [u8], table: &mut [u16]) -> u32
    ensures result_value { let before = handed state.old pool.old table.old in
        result ≡ start_number image.now before }
    ensures left { let before = handed state.old pool.old table.old in
        handed state.new pool.new table.new ≡ start_hands image.now before }
{
    if state.len() != Size::STATE {
        return Told::UNSOUND;
    }
    let started = start(pool, table, image);
    encode(started.machine, state);
    u32::from(codes::number(started.answer))
}
