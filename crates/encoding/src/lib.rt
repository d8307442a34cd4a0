// The state in bytes, so that a host can keep it between calls: written, read and tested.
// It promises: `encode` writes the bytes of a state, `decode` gives the state of bytes, `is_state` tells which bytes are a state's, each as the layout has it.
// It stands on `layout` for the definitions and what they promise, on `sandboxes` and `fields` for the parts and the row, and on `state` for what is written.
#![tactic(auto)]

ghost use Rattle.std.specs.Prelude.{◌≡◌, length};
ghost use Rattle.layout.specs.Layout.{state_size, state_bytes, state_from, is_state};

use fields::bytes::{are_canonical, decode_row, encode_row};
use fields::held::{decode_marks, encode_marks};
use layout::size::{At, Size};
use sandboxes::SandboxForm;
use state::sandbox::Machine;

// Writes a state.
pub fn encode(machine: Machine, out: &mut [u8])
    requires { length out.old ≡ state_size }
    ensures { out.new ≡ state_bytes machine }
{
    encode_row::<SandboxForm, { Machine::SANDBOXES }>(machine.sandboxes, &mut out[..At::HELD]);
    encode_marks(machine.held, &mut out[At::HELD..Size::STATE]);
}

// The state that bytes give, whatever they are: `is_state` says whether they are its own.
pub fn decode(bytes: &[u8]) -> Machine
    requires { length bytes.now ≡ state_size }
    ensures { result ≡ state_from bytes.now }
{
    Machine {
        sandboxes: decode_row::<SandboxForm, { Machine::SANDBOXES }>(bytes),
        held: decode_marks(&bytes[At::HELD..Size::STATE]),
    }
}

// Whether bytes are those of a state: its length, every flag and kind 0 or 1, and no image page without an image.
pub fn is_state(bytes: &[u8]) -> bool
    ensures { result ≡ is_state bytes.now }
{
    bytes.len() == Size::STATE && are_canonical::<SandboxForm, { Machine::SANDBOXES }>(bytes)
}
