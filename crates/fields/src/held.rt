// Marks of frames in bytes.
ghost use Rattle.std.specs.Prelude.{◌≡◌, length};
ghost use Rattle.layout.specs.Layout.{marks_size, marks_bytes, marks_from};
ghost use Rattle.layout.proofs.LengthLaws.{length-marks};

use crate::bytes::Form;
use crate::word::{decode_word, encode_word};
use frames::Held;
use layout::size::Size;

// The form of marks. Any bytes are marks, so there is no test of them.
#[derive(Clone, Copy, Debug, PartialEq, Eq)]
pub struct MarksForm;

impl Form for MarksForm {
    type Value = Held;

    ghost SIZE = { marks_size };

    ghost encode = { marks_bytes };

    ghost decode = { marks_from };

    const SIZE: usize = Size::MARKS;

    fn encode(held: Held, out: &mut [u8]) {
        encode_marks(held, out);
    }

    fn decode(bytes: &[u8]) -> Held {
        decode_marks(bytes)
    }

    ghost sized = { length-marks };
}

pub fn encode_marks(held: Held, out: &mut [u8])
    requires { length out.old ≡ marks_size }
    ensures { out.new ≡ marks_bytes held }
{
    encode_word(held.low, &mut out[..Size::WORD]);
    encode_word(held.high, &mut out[Size::WORD..Size::MARKS]);
}

pub fn decode_marks(bytes: &[u8]) -> Held
    requires { length bytes.now ≡ marks_size }
    ensures { result ≡ marks_from bytes.now }
{
    Held {
        low: decode_word(&bytes[..Size::WORD]),
        high: decode_word(&bytes[Size::WORD..Size::MARKS]),
    }
}
