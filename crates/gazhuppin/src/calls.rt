// A start, and then a call at a time, for a host that plays no roll: the state is bytes that the host lends, as it lends pool and table; and the archive roll
// of a sandbox.
// Nothing is asked of what is lent. A wrong length and bytes that are no state's are refusal 3 (2 where the code is no call), and nothing changes.
ghost use Rattle.std.specs.Prelude.{◌≡◌};
ghost use Rattle.layout.specs.Layout.{state_size};
ghost use Rattle.host_calls.specs.Calls.{handed, request_in, start_number, start_hands, Called};
ghost use Rattle.filing.specs.Filed.{left, filed};

use encoding::{decode, encode, is_state};
use filing::archive_over;
use host_calls::{Asked, Told, state_bytes};
use host_start::start_over;
use machine::call;

// How many bytes a host lends for the state.
#[unsafe(no_mangle)]
pub extern "C" fn gazhuppin_state_bytes() -> usize
    ensures { result ≡ state_size }
{
    state_bytes()
}

// Starts a machine: writes a fresh state and clears pool and table. Answers 0, or 3 where a length is wrong: then pool and table stay as they are, and so does
// `state` where the wrong length is its own.
#[unsafe(no_mangle)]
pub extern "C" fn gazhuppin_start(
    state: &mut [u8],
    pool: &mut [u8],
    table: &mut [u16],
    image: &[u8],
) -> u32
    ensures left { let before = handed state.old pool.old table.old in
        handed state.new pool.new table.new ≡ start_hands image.now before }
    ensures result_value { let before = handed state.old pool.old table.old in
        result ≡ start_number image.now before }
{
    start_over(image, state, pool, table)
}

// One call: the state is read from `state`, and the next one written there. A refused call leaves every byte of state, pool and table.
#[unsafe(no_mangle)]
pub extern "C" fn gazhuppin_call(
    state: &mut [u8],
    pool: &mut [u8],
    table: &mut [u16],
    image: &[u8],
    asked: Asked,
) -> Told
    ensures { let before = handed state.old pool.old table.old in
        let after = handed state.new pool.new table.new in
        Called image.now before (request_in asked) result after }
{
    let q = asked.request();
    if !is_state(state) {
        return Told::without_state(q);
    }
    let reply = call(decode(state), pool, table, image, q);
    encode(reply.machine, state);
    Told::by(reply.answer)
}

// Writes the archive roll of a sandbox's snapshot into `out`, and answers the number of its lines. State, pool, table and image are only read. A refusal leaves
// every byte of `out`, and the bytes past the roll stay in any case.
#[unsafe(no_mangle)]
pub extern "C" fn gazhuppin_archive(
    state: &[u8],
    pool: &[u8],
    table: &[u16],
    image: &[u8],
    sandbox: u16,
    out: &mut [u8],
) -> Told
    ensures { let before = handed state.now pool.now table.now in
        left result out.new ≡ filed image.now before sandbox out.old }
{
    archive_over(out, image, state, pool, table, sandbox)
}
