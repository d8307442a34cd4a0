// The library for hosts in C, Rust and Python: its exports. A roll is played from a start over lent memory, and pool and
// table are left for the host to look at; or a host starts a machine and makes one call at a time, with the state as bytes in its own memory, and may ask for
// the archive roll of a sandbox (src/calls).
// It promises that whatever is lent, a call ends. Of a roll: `FromStart`, from which follows all that the C header says (specs/Promised of `host_rolls`). Of
// calls one at a time: the demands (specs/HostClaims of `host_calls`). Of an archive roll: it is the plain machine's, and its calls rebuild the snapshot
// (specs/HostArchive of `filing`).
// It stands on `starting`, `playing` and `room` for a roll, on `host_start`, `machine` and `encoding` for a start and a call, and on `filing` for an archive
// roll. Nothing that holds an enum crosses to C.
#![tactic(auto)]

ghost use Rattle.std.specs.Prelude.{◌≡◌};
ghost use Rattle.lines.specs.Lines.{lines_of};
ghost use Rattle.host_rolls.specs.FromStart.{regions, FromStart};

use lines::lines_of;
use playing::{Player, play};
use room::room_for;
use starting::{accepted, start};

pub mod calls;

// How many lines a roll of so many bytes has, each of which gets a reply of 19 bytes.
#[unsafe(no_mangle)]
pub extern "C" fn gazhuppin_lines(bytes: usize) -> usize
    ensures { result ≡ lines_of bytes }
{
    lines_of(bytes)
}

// Starts the machine, plays the roll and says how many lines have a reply; without room for every reply it does nothing.
#[unsafe(no_mangle)]
pub extern "C" fn gazhuppin_play(
    roll: &[u8],
    image: &[u8],
    pool: &mut [u8],
    table: &mut [u16],
    out: &mut [u8],
) -> usize
    ensures { FromStart image.now roll.now
        (regions pool.old table.old out.old)
        (regions pool.new table.new out.new) result }
{
    let Some(lines) = room_for(roll.len(), out.len()) else {
        return 0;
    };
    let begun = start(pool, table, image);
    let sound = accepted(begun.answer);
    let player = Player {
        machine: begun.machine,
        sound,
        line: 1,
    };
    play(player, pool, table, image, roll, out);
    lines
}
