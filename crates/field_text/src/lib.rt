// A number printed into 6 columns of a line: right-justified, blanks before its digits.
// It promises that what is printed is the field that `columns` defines for the number, and that the other bytes of the line stay.
// It stands on `lines` for where the fields of a line stand, and on `pages` for a part of a list.
#![tactic(auto)]

ghost use Rattle.std.specs.Prelude.{◌≡◌, ◌+◌, ◌*◌, ◌≤◌, ◌<◌, length};
ghost use Rattle.pages.specs.Parts.{set_part};
ghost use Rattle.columns.specs.Prints.{columns, printed_field};

use lines::Line;

// Prints a number as a field of the line, from 0 on.
pub fn print_at(out: &mut [u8], field: usize, n: u32)
    requires field_in_bounds { field * 6 + 6 ≤ length out.old }
    requires n_bound { n ≤ 999999 }
    ensures { out.new ≡ set_part out.old (field * 6) (printed_field n) }
{
    let at = field * Line::FIELD;
    let end = at + Line::FIELD;
    print_field(&mut out[at..end], n);
}

// Prints a number right-justified over blanks, into 6 bytes.
fn print_field(out: &mut [u8], n: u32)
    requires out_len { length out.old ≡ 6 }
    requires n_bound { n ≤ 999999 }
    ensures { out.new ≡ printed_field n }
{
    out.fill(b' ');
    if n < Line::RADIX {
        out[Line::LAST_COLUMN] = b'0' + n as u8;
        return;
    }
    print_digits(out, n);
}

// Prints the digits of a number over six blanks, from the last to the first.
fn print_digits(out: &mut [u8], n: u32)
    requires out_value { out.old ≡ columns 6 0 }
    requires n_nonzero { (0 < n) × (n ≤ 999999) }
    ensures { out.new ≡ printed_field n }
{
    // Counted down by hand: the loop ends with the digits, and a walk back over the columns is no plainer, since it needs a way out besides.
    let mut rest = n;
    let mut i = Line::FIELD;
    while rest > 0 {
        let next = rest / Line::RADIX;
        i -= 1;
        out[i] = b'0' + (rest - next * Line::RADIX) as u8;
        rest = next;
    }
}
