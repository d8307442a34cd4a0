// A sandbox, and the four of them with the held marks.
ghost use Rattle.std.specs.Prelude.{◌≡◌};
ghost use Rattle.state.specs.World.{closed_sandbox, fresh_machine};

use frames::Held;
use interface::Request;
use records::Record;
use runs::Runs;

// What is kept for a sandbox: its record, and the runs of kept frames.
#[derive(Clone, Copy, Debug, PartialEq, Eq)]
pub struct Sandbox {
    pub rec: Record,
    pub runs: Runs,
}

// "Four sandboxes stand in a row, numbered 0 to 3"; "Held frames are marked one bit a frame".
#[derive(Clone, Copy, Debug, PartialEq, Eq)]
pub struct Machine {
    pub sandboxes: [Sandbox; Machine::SANDBOXES],
    pub held: Held,
}

impl Machine {
    pub const SANDBOXES: usize = Request::SANDBOXES;

    // The same, as a sandbox is numbered.
    pub const COUNT: u8 = Machine::SANDBOXES as u8;

    // "A fresh state has four closed sandboxes and no held frame."
    pub fn fresh() -> Machine
        ensures { result ≡ fresh_machine }
    {
        Machine {
            sandboxes: [Sandbox::closed(); Machine::SANDBOXES],
            held: Held::none(),
        }
    }
}

impl Sandbox {
    // A closed sandbox has nothing.
    pub fn closed() -> Sandbox
        ensures { result ≡ closed_sandbox }
    {
        Sandbox {
            rec: Record::closed(),
            runs: Runs::none(),
        }
    }
}
