// How a value stands in a fixed number of bytes, and rows of such values.
ghost use Rattle.std.specs.Prelude.{ℕ, ◌≡◌, ◌+◌, ◌*◌, ◌<◌, ◌≤◌, Bool, List, length};
ghost use Rattle.layout.specs.Rows.{row_bytes, row_from, is_row, part_in};

use std::array;

// The form of a value in bytes. It is a type of its own, so that a crate may give the form of a type that is declared below it.
pub trait Form {
    type Value: Copy;

    ghost SIZE: { ℕ };

    // A value's bytes, and the value that bytes give, whatever they are.
    ghost encode: { Self.Value → List ℕ };

    ghost decode: { List ℕ → Self.Value };

    const SIZE: usize;

    fn encode(value: Self::Value, out: &mut [u8])
        requires { length out.old ≡ SIZE }
        ensures { out.new ≡ encode value };

    fn decode(bytes: &[u8]) -> Self::Value
        requires { length bytes.now ≡ SIZE }
        ensures { result ≡ decode bytes.now };

    ghost sized: { (x : Self.Value) → length (encode x) ≡ SIZE };
}

// A form that not any bytes have: those that a value has can be told.
pub trait Canonical: Form {
    ghost is_canonical: { List ℕ → Bool };

    fn is_canonical(bytes: &[u8]) -> bool
        requires { length bytes.now ≡ Self.SIZE }
        ensures { result ≡ is_canonical bytes.now };
}

// Each value of a row, in its own part. A part is found by its place: nothing is promised of what a row ends as whose parts `chunks_exact_mut` lends.
pub fn encode_row<F: Form, const N: usize>(items: [F::Value; N], out: &mut [u8])
    requires { length out.old ≡ N * F.SIZE }
    ensures { (none : F.Value) → out.new ≡ row_bytes F.encode none N items }
{
    for k in 0..N {
        let at = k * F::SIZE;
        F::encode(items[k], &mut out[at..at + F::SIZE]);
    }
}

// The values that the first parts give.
pub fn decode_row<F: Form, const N: usize>(bytes: &[u8]) -> [F::Value; N]
    requires { N * F.SIZE ≤ length bytes.now }
    ensures { result ≡ row_from F.decode F.SIZE N bytes.now }
{
    array::from_fn(
        |k: usize| -> F::Value
            requires { k * F.SIZE + F.SIZE ≤ length bytes.now }
            ensures { result ≡ F.decode (part_in F.SIZE bytes.entry.now k) }
        {
            let at = k * F::SIZE;
            F::decode(&bytes[at..at + F::SIZE])
        },
    )
}

// Whether each of the first parts is the form of a value.
pub fn are_canonical<F: Canonical, const N: usize>(bytes: &[u8]) -> bool
    requires { N * F.SIZE ≤ length bytes.now }
    ensures { result ≡ is_row F.is_canonical F.SIZE N bytes.now }
{
    let mut all = true;
    for k in 0..N {
        let at = k * F::SIZE;
        all &= F::is_canonical(&bytes[at..at + F::SIZE]);
    }
    all
}
