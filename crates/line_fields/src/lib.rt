// A field of a line, read where it stands.
// It promises what the field says (`field_at`, lines/specs/Lines).
// It stands on `lines` for where the fields stand, on `blanks` and `digits` for a field of one digit, and on `numerals` for any other.
#![tactic(auto)]

ghost use Rattle.std.specs.Prelude.{◌≡◌, ◌<◌, length};
ghost use Rattle.columns.specs.Sizes.{line_bytes};
ghost use Rattle.lines.specs.Lines.{field_at};

use blanks::five_blanks;
use digits::with_digit;
use lines::Line;
use numerals::read_field;

// What a field of the line says, from 0 on. Most often it has one digit, behind five blanks. This function is compiled into its callers, so that such a field
// costs no call; any other is read by one. Where `read_field` says a number, `Some` is said anew, so that no caller tests again whether there is one.
#[inline(always)]
pub fn field_at(line: &[u8], k: usize) -> Option<u16>
    requires { (length line.now ≡ line_bytes) × (k < 7) }
    ensures { result ≡ field_at line.now k }
{
    let at = k * Line::FIELD;
    let end = at + Line::FIELD;
    if five_blanks(line, at) && line[at + Line::LAST_COLUMN].is_ascii_digit() {
        return with_digit(0, line[at + Line::LAST_COLUMN]);
    }
    let n = read_field(&line[at..end])?;
    Some(n)
}
