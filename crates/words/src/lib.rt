// Bits of a word of 64: one asked for, one put, the lowest that is set.
// It promises: each outcome is what specs/Word.antt says of the word's binary digits; proofs/WordLaws has the laws of these for any number and any place,
// proofs/OperatorLaws what the machine's operators do to them, proofs/SumLaws sums of 0s and 1s.
// It stands on `basics` alone.
#![tactic(auto)]

ghost use Rattle.std.specs.Prelude.{◌≡◌, ◌<◌, eqb};
ghost use Rattle.basics.specs.Ranges.{one, lowest};
ghost use Rattle.words.specs.Word.{bit, put_bit, word_bits};

// Whether the bit at a place is set.
pub fn has(word: u64, place: u8) -> bool
    requires { place < word_bits }
    ensures { result ≡ eqb (bit word place) 1 }
{
    (word >> place) & 1 == 1
}

// The word with the bit at a place set, or not set.
pub fn put(word: u64, place: u8, on: bool) -> u64
    requires { place < word_bits }
    ensures { result ≡ put_bit word place (one on) }
{
    if on {
        word | (1u64 << place)
    } else {
        word & !(1u64 << place)
    }
}

// The lowest place whose bit is set; 64 where none is.
pub fn lowest_set(word: u64) -> u8
    ensures { result ≡ lowest (λ k. eqb (bit word k) 1) 0 word_bits }
{
    word.trailing_zeros() as u8
}
