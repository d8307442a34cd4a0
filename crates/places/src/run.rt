// The runs of a sandbox in bytes.
ghost use Rattle.std.specs.Prelude.{◌≡◌, length};
ghost use Rattle.layout.specs.Layout.{runs_size, runs_bytes, runs_from};

use fields::bytes::{decode_row, encode_row};
use fields::held::MarksForm;
use runs::Runs;

pub fn encode_runs(runs: Runs, out: &mut [u8])
    requires { length out.old ≡ runs_size }
    ensures { out.new ≡ runs_bytes runs }
{
    encode_row::<MarksForm, { Runs::PLACES }>(runs.list, out);
}

pub fn decode_runs(bytes: &[u8]) -> Runs
    requires { length bytes.now ≡ runs_size }
    ensures { result ≡ runs_from bytes.now }
{
    Runs {
        list: decode_row::<MarksForm, { Runs::PLACES }>(bytes),
    }
}
