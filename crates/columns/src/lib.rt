// A number in 6 columns of the roll's text: what is printed of it, and what columns say. As definitions also a whole printed line (`printer` prints it).
// It promises that a number has one accepted form: what 6 columns say is the number whose print they are, and every number's print is taken (proofs/FieldLaws).
// It stands on `interface` for the numbers of a request, and on `basics`.
#![tactic(auto)]

ghost use Rattle.std.specs.Prelude.{◌≡◌};
ghost use Rattle.columns.specs.Reading.{as_field};

// "fields of 6 columns", of which the last always has a digit; numbers are decimal
pub const COLUMNS: usize = 6;

pub const LAST_COLUMN: usize = 5;

pub const RADIX: u32 = 10;
// "a number 0 to 65,535"
pub const MOST: u32 = 65_535;

// What a number that was read stands for in a field: above 65,535 for none. The limit is the document's, and not the type's, as it would be of `try_from`.
pub fn as_field(n: u32) -> Option<u16>
    ensures { result ≡ as_field n }
{
    if n > MOST {
        return None;
    }
    Some(n as u16)
}
