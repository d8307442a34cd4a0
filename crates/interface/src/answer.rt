// An answer: a value, or a refusal.

// Why a request is refused: the rows of "Turned back", in its order, each with its number. The last is the archive's alone (request A9); no call is refused so.
#[derive(Clone, Copy, Debug, PartialEq, Eq)]
pub enum Refusal {
    Malformed = 1,
    NoSuchCall,
    Unsound,
    NotOpen,
    AlreadyOpen,
    OutsideLimits,
    SnapshotTaken,
    NoSnapshot,
    NotMapped,
    AlreadyMapped,
    NoGap,
    NotWritable,
    ShareExceeded,
    TooManyAreas,
    OutputTooShort,
}

// What a call answers.
pub type Answer = Result<u32, Refusal>;
