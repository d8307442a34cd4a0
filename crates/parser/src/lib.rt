// A line of the roll parsed, by itself and at its place in the lent bytes.
// It promises what the line says (`parsed`, `line_at`, lines/specs/Lines).
// It stands on `lines` for the form of a line, and on `line_fields` for its fields.
#![tactic(auto)]

ghost use Rattle.std.specs.Prelude.{◌≡◌, Some, None};
ghost use Rattle.basics.specs.Choice.{◌when◌else◌};
ghost use Rattle.lines.specs.Lines.{well_formed, request_in, parsed, line_at};

use interface::Request;
use line_fields::field_at;
use lines::Line;

// What a line says.
pub fn parse(line: &[u8]) -> Line
    ensures { result ≡ parsed line.now }
{
    match request_in(line) {
        Some(q) => Line::Call(q),
        None => Line::Malformed,
    }
}

// The request that a line says: none where it has another length, no line feed, or a field that says no number.
fn request_in(line: &[u8]) -> Option<Request>
    ensures { result ≡ (Some (request_in line.now) when well_formed line.now else None) }
{
    if line.len() != Line::BYTES || line[Line::FEED] != b'\n' {
        return None;
    }
    Some(Request {
        code: field_at(line, Line::CODE)?,
        sandbox: field_at(line, Line::SANDBOX)?,
        p1: field_at(line, Line::P1)?,
        p2: field_at(line, Line::P2)?,
        p3: field_at(line, Line::P3)?,
        p4: field_at(line, Line::P4)?,
        p5: field_at(line, Line::P5)?,
    })
}

// What the roll's line of that number says, from 0 on. "A short last line is malformed."
pub fn line_at(roll: &[u8], line: usize) -> Line
    ensures { result ≡ line_at roll.now line }
{
    if roll.len() / Line::BYTES <= line {
        return Line::Malformed;
    }
    let at = line * Line::BYTES;
    let end = at + Line::BYTES;
    parse(&roll[at..end])
}
