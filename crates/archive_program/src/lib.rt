// What the program for the archive box reads, answers and writes: definitions and theorems, and the sandbox that its argument names.
// It promises that what is handed on to be written is the plain machine's archive roll, or nothing where that is refused (specs/Prints).
// It stands on `replay` and `archiving` for the archive roll, on `roll_input` for the roll played, and on `image_file` for an image that cannot be read.
#![tactic(auto)]

ghost use Rattle.std.specs.Prelude.{◌≡◌};
ghost use Rattle.archive_program.specs.Sandbox.{named};

// The first number that no sandbox has.
const NO_SANDBOX: u16 = 4;

// One digit, 0 to 3, names a sandbox; anything else names none.
pub fn name(bytes: usize, first: u8) -> u16
    ensures { result ≡ named bytes first }
{
    match (bytes, first) {
        (1, b'0'..=b'3') => u16::from(first - b'0'),
        _ => NO_SANDBOX,
    }
}
