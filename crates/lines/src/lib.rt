// The roll's text: what a line of the roll says, where each line stands in the lent bytes, and how many lines they are.
// It promises that a line has one accepted form: what is taken for a request is that request's print, and every request's print is taken (proofs/LineLaws).
// It stands on `columns` for a number in 6 columns, and on `interface` for the request. `parser` parses a line.
#![tactic(auto)]

ghost use Rattle.std.specs.Prelude.{◌≡◌};
ghost use Rattle.lines.specs.Lines.{lines_of};

use columns::{COLUMNS, LAST_COLUMN, RADIX};
use interface::Request;

// What a line of the roll says: a call, or nothing.
#[derive(Clone, Copy, Debug, PartialEq, Eq)]
pub enum Line {
    Call(Request),
    Malformed,
}

impl Line {
    // "Lines after the 65,535th are not read."
    pub const MOST: usize = 65_535;
    // "7 fields of 6 columns and a line feed, 43 bytes"
    pub const BYTES: usize = 43;
    // where the line feed stands
    pub const FEED: usize = 42;
    // A reply is "3 fields a line, same columns", and has its line feed behind them.
    pub const REPLY: usize = 19;

    pub const REPLY_FEED: usize = 18;
    // "fields of 6 columns", of which the last always has a digit; numbers are decimal
    pub const FIELD: usize = COLUMNS;

    pub const LAST_COLUMN: usize = LAST_COLUMN;

    pub const RADIX: u32 = RADIX;
    // The fields of a line, from 0 on: "call, sandbox, p1 to p5"
    pub const CODE: usize = 0;

    pub const SANDBOX: usize = 1;

    pub const P1: usize = 2;

    pub const P2: usize = 3;

    pub const P3: usize = 4;

    pub const P4: usize = 5;

    pub const P5: usize = 6;
    // The fields of a reply: "line number from 1, refusal number or 0, value"
    pub const REPLY_LINE: usize = 0;

    pub const REPLY_NUMBER: usize = 1;

    pub const REPLY_VALUE: usize = 2;
}

// How many lines a roll of so many bytes has: the whole ones, one for a short rest, and none after the 65,535th.
#[tactic(auto, unfolding(crate::specs::Lines::lines_of))]
pub fn lines_of(bytes: usize) -> usize
    ensures { result ≡ lines_of bytes }
{
    if bytes / Line::BYTES >= Line::MOST {
        return Line::MOST;
    }
    (bytes + Line::BYTES - 1) / Line::BYTES
}
