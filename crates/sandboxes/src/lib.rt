// A sandbox in bytes: written, read and tested.
// It promises: the bytes, and what is read of them, are those of layout/specs/Layout (`sandbox_bytes`, `sandbox_from`, `is_sandbox`).
// It stands on `layout` for the definitions and their laws, on `fields` for a flag and for what a form is, on `places` for areas and runs, and on `state`
// for what is laid out.
#![tactic(auto)]

ghost use Rattle.std.specs.Prelude.{◌≡◌, length};
ghost use Rattle.layout.specs.Layout.{sandbox_size, sandbox_bytes, sandbox_from, is_sandbox};
ghost use Rattle.layout.proofs.LengthLaws.{length-sandbox};

use fields::bytes::{Canonical, Form};
use fields::word::flag;
use layout::size::{At, Size};
use places::area::{decode_areas, encode_areas, is_areas};
use places::run::{decode_runs, encode_runs};
use records::Record;
use state::sandbox::Sandbox;

// The form of a sandbox.
#[derive(Clone, Copy, Debug, PartialEq, Eq)]
pub struct SandboxForm;

impl Form for SandboxForm {
    type Value = Sandbox;

    ghost SIZE = { sandbox_size };

    ghost encode = { sandbox_bytes };

    ghost decode = { sandbox_from };

    const SIZE: usize = Size::SANDBOX;

    fn encode(sandbox: Sandbox, out: &mut [u8]) {
        encode_sandbox(sandbox, out);
    }

    fn decode(bytes: &[u8]) -> Sandbox {
        decode_sandbox(bytes)
    }

    ghost sized = { length-sandbox };
}

impl Canonical for SandboxForm {
    ghost is_canonical = { is_sandbox };

    fn is_canonical(bytes: &[u8]) -> bool {
        is_sandbox(bytes)
    }
}

pub fn encode_sandbox(sandbox: Sandbox, out: &mut [u8])
    requires { length out.old ≡ sandbox_size }
    ensures { out.new ≡ sandbox_bytes sandbox }
{
    let rec = sandbox.rec;
    encode_areas(rec.present, &mut out[At::PRESENT..At::SNAPSHOT]);
    encode_areas(rec.snapshot, &mut out[At::SNAPSHOT..At::RUNS]);
    encode_runs(sandbox.runs, &mut out[At::RUNS..Size::SANDBOX]);
    out[At::OPENED] = flag(rec.opened);
    out[At::SHARE] = rec.share;
    out[At::TAKEN] = flag(rec.taken);
}

pub fn decode_sandbox(bytes: &[u8]) -> Sandbox
    requires { length bytes.now ≡ sandbox_size }
    ensures { result ≡ sandbox_from bytes.now }
{
    Sandbox {
        rec: Record {
            opened: bytes[At::OPENED] == 1,
            share: bytes[At::SHARE],
            present: decode_areas(&bytes[At::PRESENT..At::SNAPSHOT]),
            taken: bytes[At::TAKEN] == 1,
            snapshot: decode_areas(&bytes[At::SNAPSHOT..At::RUNS]),
        },
        runs: decode_runs(&bytes[At::RUNS..Size::SANDBOX]),
    }
}

pub fn is_sandbox(bytes: &[u8]) -> bool
    requires { length bytes.now ≡ sandbox_size }
    ensures { result ≡ is_sandbox bytes.now }
{
    let areas = is_areas(&bytes[At::PRESENT..At::SNAPSHOT])
        & is_areas(&bytes[At::SNAPSHOT..At::RUNS]);
    (bytes[At::OPENED] <= 1) & ((bytes[At::TAKEN] <= 1) & areas)
}
