// The player: "reads the roll on standard input and the image from `image.bin`", plays it with 128 frames, and prints a line for each line.
// It answers each line as soon as the line has come, so that a program can talk with it. It promises that what it reads, one line after the other, is one roll
// played from a start, and that what it hands on to be written is that roll's replies (`Talked`); so they are the plain machine's, or the refusals of a wrong
// length (specs/Replies of `conversation`).
// It stands on `playing`, on `conversation` for what is promised, on `image_file` for the image, and on `streams` for what is
// read and written; which bytes these are nothing proves. Where a reply cannot be written, standard error says why.
#![tactic(auto)]

ghost use Rattle.std.specs.Prelude.{◌≡◌, ◌≤◌, length};
ghost use Rattle.columns.specs.Sizes.{line_bytes, most_lines, reply_bytes};
ghost use Rattle.state.specs.World.{world_of};
ghost use Rattle.state.specs.Start.{started_by};
ghost use Rattle.roll.specs.Known.{Known};
ghost use Rattle.conversation.specs.Conversation.{turn_of, goes_on, Answers, Talked};

use conversation::{Progress, goes_on};
use image_file::{Found, image_bytes, load};
use lines::{Line, lines_of};
use marks::Marks;
use playing::{Player, play};
use std::io::writer;
use streams::{read_full, write_output};

fn main(rt: HostRuntime) {
    let mut image = [0u8; Found::BYTES];
    let bytes = image_bytes(load(&rt, &mut image));
    let mut pool = [0u8; Player::POOL];
    let mut table = [0u16; Marks::ENTRIES];
    perform(&rt, &mut pool, &mut table, &image[..bytes]);
}

// Plays the roll from a start, line by line, and says whether every reply was written. "Lines after the 65,535th are not read."
fn perform(rt: &HostRuntime, pool: &mut [u8], table: &mut [u16], image: &[u8]) -> bool
    ensures { let started = started_by pool.old table.old image.now in
        Talked image.now started pool.new table.new result }
{
    let begun = starting::start(pool, table, image);
    let sound = starting::accepted(begun.answer);
    let mut machine = begun.machine;
    for line in 1..=Player::LAST {
        let player = Player {
            machine,
            sound,
            line,
        };
        let mut read = [0u8; Line::BYTES];
        let mut reply = [0u8; Line::REPLY];
        let progress = turn(rt, player, pool, table, image, &mut read, &mut reply);
        if !progress.more {
            return progress.written;
        }
        machine = progress.machine;
    }
    true
}

// Reads a line, plays it and prints its reply. Where nothing is read, nothing is printed.
fn turn(
    rt: &HostRuntime,
    player: Player,
    pool: &mut [u8],
    table: &mut [u16],
    image: &[u8],
    line: &mut [u8],
    reply: &mut [u8],
) -> Progress
    requires line_len { (length line.old ≡ line_bytes) × (length reply.old ≡ reply_bytes) }
    requires line_bound { player.line ≤ most_lines }
    requires known { Known player.sound image.now (world_of player.machine pool.old table.old) }
    ensures fact { let before = world_of player.machine pool.old table.old in
        Answers image.now player.line before (turn_of result line.new reply.new)
        (world_of result.machine pool.new table.new) }
    ensures more_value { result.more ≡ goes_on (turn_of result line.new reply.new) }
{
    let mut input = rt.stdin();
    let got = read_full(&mut input, line);
    let after = play(player, pool, table, image, &line[..got], reply);
    let size = lines_of(got) * Line::REPLY;
    let stdout = rt.stdout();
    let mut output = writer(&stdout);
    let written = write_output(rt, &mut output, &reply[..size]);
    Progress {
        machine: after,
        got: got,
        written: written,
        more: goes_on(written, got),
    }
}
