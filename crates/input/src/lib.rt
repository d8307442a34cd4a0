// A line on standard input: whether all of it has come, so that another line is read.
// It promises that this is told by the number of bytes that came. It stands on `lines`.
#![tactic(auto)]

ghost use Rattle.std.specs.Prelude.{◌≡◌, eqb};
ghost use Rattle.columns.specs.Sizes.{line_bytes};

use lines::Line;

// Whether so many bytes are a whole line, "43 bytes", and not "A short last line".
pub fn is_whole(got: usize) -> bool
    ensures { result ≡ eqb got line_bytes }
{
    got == Line::BYTES
}
