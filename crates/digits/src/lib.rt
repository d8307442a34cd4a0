// The digits of a field, read as a number from the first of them on.
// It promises that behind blanks they say what the 6 columns say, and that one more digit is the number's next column (`field_of`, `with_digit`,
// columns/specs/Fields). It stands on `columns`.
#![tactic(auto)]

ghost use Rattle.std.specs.Prelude.{◌≡◌, ◌<◌, length, ◌≢◌, slice_index, Some};
ghost use Rattle.columns.specs.Fields.{with_digit, columns_read, field_of};

use columns::{RADIX, as_field};

// The digits from the first column that is no blank. It is not the last, and so has no 0. Compiled into `read_field` (numerals), its one caller.
#[inline(always)]
pub fn digits_from(part: &[u8], first: usize) -> Option<u16>
    requires part_len { (length part.now ≡ 6) × (0 < first) × (first < 5) }
    requires first_value { (columns_read part.now first ≡ Some 0) × (slice_index part.now first ≢ 32) }
    ensures { result ≡ field_of part.now }
{
    if part[first] == b'0' {
        return None;
    }
    let mut n = 0;
    for &byte in &part[first..] {
        n = with_digit(n, byte)?;
    }
    Some(n)
}

// A number with one more column, which has a digit. Compiled into its callers: before the first digit there is no limit to look at.
#[inline(always)]
pub fn with_digit(n: u16, byte: u8) -> Option<u16>
    ensures { result ≡ with_digit (Some n) byte }
{
    if !byte.is_ascii_digit() {
        return None;
    }
    as_field(u32::from(n) * RADIX + u32::from(byte - b'0'))
}
