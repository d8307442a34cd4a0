// What the player says of each line that it hears: definitions and theorems, and when another line is read.
// It promises that a conversation is one roll played, and that its replies are the plain machine's, or the refusals of a wrong length (specs/Replies).
// It stands on `roll` for what is played, on `image_file` for an image that cannot be read, and on `lines`.
#![tactic(auto)]

ghost use Rattle.std.specs.Prelude.{◌≡◌, ◌&&◌, eqb};
ghost use Rattle.columns.specs.Sizes.{line_bytes};

use lines::Line;
use state::sandbox::Machine;

// What a turn leaves: the machine, how many bytes of a line were read, whether its reply was written, and whether another line is to be read.
#[derive(Clone, Copy)]
pub struct Progress {
    pub machine: Machine,
    pub got: usize,
    pub written: bool,
    pub more: bool,
}

// Whether another line is to be read: not after "A short last line", nor after a reply that could not be written.
pub fn goes_on(written: bool, got: usize) -> bool
    ensures { result ≡ (written && eqb got line_bytes) }
{
    written & (got == Line::BYTES)
}
