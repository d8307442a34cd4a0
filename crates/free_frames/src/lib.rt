// The greatest frame of a pool that is not held.
// It promises: what is found is the greatest number below the pool's frames at which the mark is 0 (`greatest`, specs/Greatest.antt); there is none just where
// no mark is 0. Callers use the laws of this definition, proofs/GreatestLaws.antt, and never the bits.
// It stands on `frames` for the marks, and on `words` for the bits of a word.
#![tactic(auto)]

ghost use Rattle.std.specs.Prelude.{◌≡◌, ◌≤◌};
ghost use Rattle.interface.specs.Numbers.{most_frames};
ghost use Rattle.words.specs.Word.{bit, word_bits};
ghost use Rattle.frames.specs.Frames.{held};
ghost use Rattle.free_frames.specs.Greatest.{greatest};

use frames::{FrameNo, Held};

// The last place of a word.
const LAST: u8 = Held::WORD - 1;

// A word that marks each of its frames.
const ALL: u64 = 0xffff_ffff_ffff_ffff;

// The greatest frame of a pool of so many frames that is not held.
pub fn greatest_free(marks: Held, frames: u8) -> Option<FrameNo>
    requires { frames ≤ most_frames }
    ensures { result ≡ greatest (held marks) frames }
{
    if frames <= Held::WORD {
        return greatest_unset(marks.low, frames);
    }
    match greatest_unset(marks.high, frames - Held::WORD) {
        Some(f) => Some(FrameNo(Held::WORD + f.0)),
        None => greatest_unset(marks.low, Held::WORD),
    }
}

// The greatest of the low places, so many of them, whose bit is not set.
fn greatest_unset(word: u64, places: u8) -> Option<FrameNo>
    requires { places ≤ word_bits }
    ensures { result ≡ greatest (bit word) places }
{
    if places == 0 {
        return None;
    }
    let free = !word & (ALL >> (Held::WORD - places));
    if free == 0 {
        return None;
    }
    let zeros = free.leading_zeros() as u8;
    Some(FrameNo(LAST - zeros))
}
