// A roll played over lent bytes: lines are read ahead, then each is answered and its reply printed, in order; and so on until all are.
// It promises that the replies are those of a run of the well-formed lines' requests, and refusal 1 for each other line (`Played` of `roll`).
// It stands on `read_ahead` for the lines, on `replying` for the replies to them, and on `roll` for what is played.
#![tactic(auto)]

ghost use Rattle.std.specs.Prelude.{◌≡◌, ◌+◌, ◌*◌, ◌≤◌, min, length};
ghost use Rattle.columns.specs.Sizes.{printed_numbers, reply_bytes};
ghost use Rattle.lines.specs.Lines.{lines_of};
ghost use Rattle.read_ahead.specs.ReadAhead.{lines_ahead};
ghost use Rattle.state.specs.World.{world_of};
ghost use Rattle.roll.specs.Known.{Known};
ghost use Rattle.roll.specs.Play.{Played};

use line_numbers::NUMBERS;
use lines::{Line, lines_of};
use read_ahead::read_lines;
use replying::{Playing, reply_lines};
use state::sandbox::Machine;

// Who plays: the machine, whether its state is sound, and the number of the next line.
#[derive(Clone, Copy)]
pub struct Player {
    pub machine: Machine,
    pub sound: bool,
    pub line: u32,
}

impl Player {
    // "Lines after the 65,535th are not read."
    pub const LAST: u32 = 65_535;
    // How many lines are read ahead, at the most, before they are answered; and their numbers. While lines that were read ahead are answered, the machine's
    // state stays where it is.
    pub const AHEAD: usize = 64;

    pub const NUMBERS_AHEAD: usize = 512;
    // The bytes of a program's pool: "with 128 frames"
    pub const POOL: usize = 32_768;
}

// Plays a roll, or a part of one that starts at a line's start, from the player's line on. Each line's reply is 19 bytes of out.
// "Lines after the 65,535th are not read."
pub fn play(
    player: Player,
    pool: &mut [u8],
    table: &mut [u16],
    image: &[u8],
    roll: &[u8],
    out: &mut [u8],
) -> Machine
    requires roll_in_bounds { lines_of (length roll.now) * reply_bytes ≤ length out.old }
    requires roll_bound { player.line + lines_of (length roll.now) ≤ printed_numbers }
    requires known { Known player.sound image.now (world_of player.machine pool.old table.old) }
    ensures { let before = world_of player.machine pool.old table.old in
        let lines = lines_of (length roll.now) in
        Played image.now before roll.now lines player.line out.old
        out.new
        (world_of result pool.new table.new) }
{
    let machine = player.machine;
    let sandboxes = machine.sandboxes;
    let held = machine.held;
    let mut playing = Playing {
        sandboxes: sandboxes,
        held: held,
        sound: player.sound,
        first: player.line,
        answered: 0,
    };
    let lines = lines_of(roll.len());
    let mut numbers = [0u16; Player::NUMBERS_AHEAD];
    while playing.answered < lines {
        let done = playing.answered;
        let end = ahead(lines - done) * NUMBERS;
        let from = done * Line::BYTES;
        read_lines(&roll[from..], &mut numbers[..end]);
        playing = reply_lines(playing, pool, table, image, &numbers[..end], out);
    }
    let after = playing.sandboxes;
    let marks = playing.held;
    Machine {
        sandboxes: after,
        held: marks,
    }
}

// How many of the lines that are left are read ahead.
fn ahead(left: usize) -> usize
    ensures { result ≡ min left lines_ahead }
{
    if left < Player::AHEAD {
        return left;
    }
    Player::AHEAD
}
