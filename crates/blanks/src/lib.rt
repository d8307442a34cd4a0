// Blanks among the columns of a line: the five before the one digit that a field most often has.
// It promises whether all five are blanks (`blanks`, columns/specs/Reading). It stands on `columns`.
#![tactic(auto)]

ghost use Rattle.std.specs.Prelude.{◌≡◌, ◌+◌, ◌≤◌, length};
ghost use Rattle.columns.specs.Reading.{blanks};

// Whether the five bytes from a place on are blanks, as where a field has one digit. The first four are compared as one number, and all without a branch.
pub fn five_blanks(text: &[u8], at: usize) -> bool
    requires { at + 5 ≤ length text.now }
    ensures { result ≡ blanks text.now at 5 }
{
    let four = u32::from_le_bytes([text[at], text[at + 1], text[at + 2], text[at + 3]]);
    (four == u32::from_le_bytes([b' '; 4])) & (text[at + 4] == b' ')
}
