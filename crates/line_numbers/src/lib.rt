// A line of the roll as numbers: what a line that is read ahead of its turn is kept as, eight numbers a line, until it is answered.
// It promises that a line's numbers stand at its place and the rest stays (`put_line`), and that the line taken from there is the one that was put
// (`numbers-back` of proofs/NumbersLaws).
// It stands on `lines` for what a line says. `read_ahead` puts the lines of a roll so.
#![tactic(auto)]

ghost use Rattle.std.specs.Prelude.{◌≡◌, ◌++◌, ◌+◌, ◌*◌, ◌≤◌, length, take, drop};
ghost use Rattle.line_numbers.specs.Numbers.{line_number_count, numbers_of, line_in};

use interface::Request;
use lines::Line;

// Numbers that a line read ahead has: whether it is a call, and the call's seven fields.
pub const NUMBERS: usize = 8;

// The numbers of a line put at its place, from 0 on.
pub fn put_line(numbers: &mut [u16], k: usize, line: Line)
    requires { k * line_number_count + line_number_count ≤ length numbers.old }
    ensures { let before = numbers.old in
        numbers.new
        ≡ take (k * line_number_count) before ++ (numbers_of line ++ drop (k * line_number_count + line_number_count) before) }
{
    let at = k * NUMBERS;
    let end = at + NUMBERS;
    put(&mut numbers[at..end], line);
}

// The numbers of a line put into a part that has room for them alone.
fn put(part: &mut [u16], line: Line)
    requires { length part.old ≡ line_number_count }
    ensures { part.new ≡ numbers_of line }
{
    match line {
        // By place: `copy_from_slice` puts the eight on the stack first, and with it a line misses a bar of speed (docs/DESIGN-PASS.md, 'Speed').
        Line::Call(q) => {
            part[0] = 1;
            part[1] = q.code;
            part[2] = q.sandbox;
            part[3] = q.p1;
            part[4] = q.p2;
            part[5] = q.p3;
            part[6] = q.p4;
            part[7] = q.p5;
        }
        Line::Malformed => part.fill(0),
    }
}

// The line whose numbers stand at a place.
pub fn line_in(numbers: &[u16], k: usize) -> Line
    requires { k * line_number_count + line_number_count ≤ length numbers.now }
    ensures { result ≡ line_in numbers.now k }
{
    let at = k * NUMBERS;
    if numbers[at] == 0 {
        return Line::Malformed;
    }
    // Each number by its place: a pattern of eight over the part is no plainer, since it needs a way out for another length.
    Line::Call(Request {
        code: numbers[at + 1],
        sandbox: numbers[at + 2],
        p1: numbers[at + 3],
        p2: numbers[at + 4],
        p3: numbers[at + 5],
        p4: numbers[at + 6],
        p5: numbers[at + 7],
    })
}
