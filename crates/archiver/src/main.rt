// The program for the archive box: plays the roll on standard input with 128 frames and the image from `image.bin`, and writes the archive roll of the snapshot
// of the sandbox that its argument names. Where that is refused it writes nothing, and says the refusal's number on standard error.
// It promises that what it reads, one line after the other, is one roll played from a start, and that answer and output are those of the archive roll of what
// that roll left (`Performed`); so what it hands on to be written is the plain machine's archive roll, or nothing where that is refused (specs/Prints of
// `archive_program`).
// It stands on `starting` for the start, on `playing` for the roll played (src/roll_input), on `input` for when another line is read, on `archiving` for the
// archive roll, on `archive_program` for what is promised, on `image_file` for the image, and on `streams` for what is read and
// written; which bytes these are nothing proves.
#![tactic(auto)]

ghost use Rattle.std.specs.Prelude.{◌≡◌, ◌*◌, ◌≤◌, length};
ghost use Rattle.interface.specs.Answers.{value_of};
ghost use Rattle.columns.specs.Sizes.{line_bytes};
ghost use Rattle.state.specs.Start.{started_by};
ghost use Rattle.archive_program.specs.Performed.{Performed};

use archive_program::name;
use archiving::write_archive;
use image_file::{Found, image_bytes, load};
use interface::Answer;
use lines::Line;
use marks::Marks;
use playing::Player;
use roll_input::play_input;
use starting::{accepted, start};
use std::env::Env;
use std::io::writer;
use streams::write_output;

mod roll_input;

fn main(rt: HostRuntime) {
    let mut image = [0u8; Found::BYTES];
    let bytes = image_bytes(load(&rt, &mut image));
    let mut pool = [0u8; Player::POOL];
    let mut table = [0u16; Marks::ENTRIES];
    let mut out = output();
    let sandbox = sandbox(&rt);
    let answer = perform(
        &rt,
        &mut pool,
        &mut table,
        &image[..bytes],
        sandbox,
        &mut out,
    );
    let size = size(answer);
    let stdout = rt.stdout();
    let mut output = writer(&stdout);
    write_output(&rt, &mut output, &out[..size]);
    say(&rt, codes::number(answer));
}

// Plays the roll from a start, and writes the archive roll of a sandbox of what it leaves into `out`.
fn perform(
    rt: &HostRuntime,
    pool: &mut [u8],
    table: &mut [u16],
    image: &[u8],
    sandbox: u16,
    out: &mut [u8],
) -> Answer
    ensures fact { let started = started_by pool.old table.old image.now in
        Performed image.now started sandbox out.old result out.new }
    ensures result_in_bounds { value_of result * line_bytes ≤ length out.new }
{
    let begun = start(pool, table, image);
    let answer = begun.answer;
    let sound = accepted(answer);
    let fresh = begun.machine;
    let machine = play_input(rt, fresh, sound, pool, table, image);
    write_archive(machine, pool, table, image, sandbox, out)
}

// Room for the longest archive roll, 16,402 lines of 43 bytes.
const OUTPUT: usize = 705_286;

// The output. That the contract tells the length alone keeps proofs from going through the bytes one by one.
fn output() -> [u8; OUTPUT]
    ensures { 705286 ≡ length result }
{
    [0; OUTPUT]
}

// How many bytes of the output are the roll: none where it is refused.
fn size(answer: Answer) -> usize
    ensures { result ≡ value_of answer * line_bytes }
{
    codes::value(answer) as usize * Line::BYTES
}

// The sandbox that the program's argument names.
fn sandbox(rt: &HostRuntime) -> u16 {
    let mut text = [0u8; 1];
    let bytes = match rt.arg(1, &mut text) {
        Ok(bytes) => bytes,
        Err(_) => 0,
    };
    name(bytes, text[0])
}

// Says a refusal's number on standard error.
fn say(rt: &HostRuntime, number: u8) {
    if number != 0 {
        let _ = eprintln!(rt; "refusal {number}");
    }
}
