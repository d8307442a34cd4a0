// The roll read ahead: the lines of a roll as numbers, before any of them is answered.
// It promises that what stands in the numbers is the roll's lines in their order, eight numbers a line (`numbers_in`), and so that each line can be taken
// from its place (`line-ahead` of proofs/AheadLaws).
// It stands on `reader` for the lines, and on `line_numbers` for a line's numbers.
#![tactic(auto)]

ghost use Rattle.std.specs.Prelude.{◌≡◌, ◌++◌, ◌*◌, ◌/◌, length, drop};
ghost use Rattle.line_numbers.specs.Numbers.{line_number_count};
ghost use Rattle.read_ahead.specs.ReadAhead.{numbers_in};

use line_numbers::{NUMBERS, put_line};
use reader::Reader;

// As many lines of the roll as `numbers` has room for, read from its first on by one reader that goes over the lent bytes line by line.
pub fn read_lines(roll: &[u8], numbers: &mut [u16])
    ensures { let before = numbers.old in let lines = length before / line_number_count in
        numbers.new
        ≡ numbers_in roll.now lines ++ drop (lines * line_number_count) before }
{
    let lines = numbers.len() / NUMBERS;
    let mut reader = Reader::new(roll);
    for place in 0..lines {
        put_line(numbers, place, reader.next());
        reader = reader.skip();
    }
}
