// Held frames, 'marked one bit a frame', in two 64-bit words.
// It promises: each method's outcome is a definition of specs/Frames.antt, which speaks of the mark of a frame by the frame's number.
// Callers use the laws of these definitions, proofs/FrameLaws.antt (marks, counts) and proofs/PairLaws.antt (two marks, the smallest held frame), and never
// the bits. The greatest frame that is not held is found in `free_frames`.
// It stands on `words` for the bits of a word.
#![tactic(auto)]

ghost use Rattle.std.specs.Prelude.{◌≡◌, ◌<◌, eqb};
ghost use Rattle.basics.specs.Ranges.{one};
ghost use Rattle.interface.specs.Numbers.{most_frames};
ghost use Rattle.frames.specs.Frames.{held, mark, none_held, same_held, count_held, least_held, both_held, apart_held};

use words::{has, lowest_set, put};

// The number of a frame of the pool: no page number and no image page number.
#[derive(Clone, Copy, Debug, PartialEq, Eq)]
pub struct FrameNo(pub u8);

impl FrameNo {
    // "The pool is 1 to 128 frames of 256 bytes."
    pub const COUNT: usize = 128;
}

// The marks of frames 0 to 63, and of 64 to 127.
#[derive(Clone, Copy, Debug, PartialEq, Eq)]
pub struct Held {
    pub low: u64,
    pub high: u64,
}

impl Held {
    // The frames that one of the two words marks.
    pub const WORD: u8 = 64;

    // No held frame.
    pub fn none() -> Held
        ensures { result ≡ none_held }
    {
        Held { low: 0, high: 0 }
    }

    // Whether a frame is held.
    #[tactic(auto, unfolding(crate::specs::Frames::held))]
    pub fn contains(self, frame: FrameNo) -> bool
        requires { frame.0 < most_frames }
        ensures { result ≡ eqb (held self frame.0) 1 }
    {
        let n = frame.0;
        if n < Held::WORD {
            has(self.low, n)
        } else {
            has(self.high, n - Held::WORD)
        }
    }

    // The same marks, and this frame held.
    pub fn with(self, frame: FrameNo) -> Held
        requires { frame.0 < most_frames }
        ensures { result ≡ mark self frame.0 1 }
    {
        marked(self, frame, true)
    }

    // The same marks, and this frame not held.
    pub fn without(self, frame: FrameNo) -> Held
        requires { frame.0 < most_frames }
        ensures { result ≡ mark self frame.0 0 }
    {
        marked(self, frame, false)
    }

    // How many frames are held.
    pub fn count(self) -> u8
        ensures { result ≡ count_held self }
    {
        self.low.count_ones() as u8 + self.high.count_ones() as u8
    }

    // Whether two have the same marks.
    pub fn same(self, other: Held) -> bool
        ensures { result ≡ same_held self other }
    {
        self == other
    }

    // The smallest held frame; 128 where none is held.
    pub fn least(self) -> u8
        ensures { result ≡ least_held self }
    {
        let low = lowest_set(self.low);
        if low < Held::WORD {
            return low;
        }
        Held::WORD + lowest_set(self.high)
    }

    // The frames that either marks.
    #[tactic(auto, unfolding(crate::specs::Frames::both_held))]
    pub fn both(self, other: Held) -> Held
        ensures { result ≡ both_held self other }
    {
        Held {
            low: self.low | other.low,
            high: self.high | other.high,
        }
    }

    // Whether no frame is marked by both.
    #[tactic(auto, unfolding(crate::specs::Frames::apart_held))]
    pub fn apart(self, other: Held) -> bool
        ensures { result ≡ apart_held self other }
    {
        (self.low & other.low == 0) & (self.high & other.high == 0)
    }
}

// The same marks, and this frame held or not.
#[tactic(auto, unfolding(crate::specs::Frames::mark))]
fn marked(marks: Held, frame: FrameNo, on: bool) -> Held
    requires { frame.0 < most_frames }
    ensures { result ≡ mark marks frame.0 (one on) }
{
    let n = frame.0;
    if n < Held::WORD {
        Held {
            low: put(marks.low, n, on),
            ..marks
        }
    } else {
        Held {
            high: put(marks.high, n - Held::WORD, on),
            ..marks
        }
    }
}
