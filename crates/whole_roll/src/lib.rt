// The whole archive roll of a snapshot, segment by segment: counted, or written into lent output; and written only where it fits.
// It promises: the lines are those of `roll_of`, and what is answered and left is `fitted` (specs/Whole). A roll that does not fit leaves every byte.
// It stands on `segments` for the roll's maps, writes and protects, and on `printing` for a line put.
#![tactic(auto)]

ghost use Rattle.std.specs.Prelude.{◌≡◌};
ghost use Rattle.interface.specs.Requests.{request_of};
ghost use Rattle.printing.specs.Put.{placed, put, Room};
ghost use Rattle.segments.specs.ByPages.{Readable};
ghost use Rattle.whole_roll.specs.Whole.{roll_of, left, fitted};

use interface::{Answer, Refusal, Request};
use lines::Line;
use printing::{Cursor, put_line};
use segments::Snapshot;
use segments::maps::put_maps;
use segments::protects::put_protects;
use segments::writes::put_writes;

// "The answer is the number of lines". The roll is counted first, and written only where it fits: "any refusal leaves all output memory untouched".
pub fn put_fitting(
    out: &mut [u8],
    snapshot: Snapshot,
    image: &[u8],
    pool: &[u8],
    table: &[u16],
) -> Answer
    requires { Readable image.now pool.now table.now snapshot }
    ensures { let roll = roll_of image.now pool.now table.now snapshot in
        left result out.new ≡ fitted roll out.old }
{
    let counting = Cursor {
        line: 0,
        writes: false,
    };
    let lines = put_roll(out, counting, snapshot, image, pool, table).line;
    if out.len() < lines as usize * Line::BYTES {
        return Err(Refusal::OutputTooShort);
    }
    let writing = Cursor {
        line: 0,
        writes: true,
    };
    put_roll(out, writing, snapshot, image, pool, table);
    Ok(lines)
}

// The roll of a snapshot, segment by segment.
fn put_roll(
    out: &mut [u8],
    to: Cursor,
    snapshot: Snapshot,
    image: &[u8],
    pool: &[u8],
    table: &[u16],
) -> Cursor
    requires readable { Readable image.now pool.now table.now snapshot }
    requires room { Room to out.old (roll_of image.now pool.now table.now snapshot) }
    ensures { let roll = roll_of image.now pool.now table.now snapshot in
        placed result out.new ≡ put to out.old roll }
{
    let opening = line(Request::OPEN, snapshot.sandbox, snapshot.share);
    let closing = line(Request::SNAPSHOT, snapshot.sandbox, 0);
    let opened = put_line(out, to, opening);
    let mapped = put_maps(snapshot, out, opened);
    let written = put_writes(pool, table, image, snapshot, out, mapped);
    let protected = put_protects(snapshot, out, written);
    put_line(out, protected, closing)
}

// A line with one parameter at most.
fn line(code: u16, sandbox: u8, p1: u8) -> Request
    ensures { result ≡ request_of code sandbox p1 0 0 0 0 }
{
    Request {
        code: code,
        sandbox: sandbox as u16,
        p1: p1 as u16,
        p2: 0,
        p3: 0,
        p4: 0,
        p5: 0,
    }
}
