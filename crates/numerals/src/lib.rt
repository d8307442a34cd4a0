// A numeral in 6 columns, read: blanks, then digits.
// It promises what the columns say (`field_of`, columns/specs/Fields).
// It stands on `digits` for those behind the blanks.
#![tactic(auto)]

ghost use Rattle.std.specs.Prelude.{◌≡◌, length};
ghost use Rattle.columns.specs.Fields.{field_of};

use columns::LAST_COLUMN;
use digits::{digits_from, with_digit};

// Reads 6 columns: they are passed over to the first that is no blank, and from there on digits are read. It is compiled apart
// from `field_at` (line_fields), which is compiled into its callers.
#[inline(never)]
pub fn read_field(part: &[u8]) -> Option<u16>
    requires { length part.now ≡ 6 }
    ensures { result ≡ field_of part.now }
{
    if part[0] != b' ' {
        return None;
    }
    for first in 1..LAST_COLUMN {
        if part[first] != b' ' {
            return digits_from(part, first);
        }
    }
    with_digit(0, part[LAST_COLUMN])
}
