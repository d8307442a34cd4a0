// The layout of the state in bytes: 932 of them, each part a table (specs/Layout), with the size and place of each part as constants.
// It promises (specs/Claims): the bytes of a state give that state again, only canonical bytes pass the test, so that a state has one form and equal bytes
// are equal states, and every sound state can be written so; a fresh state is 932 zero bytes. The code is in `fields`, `places` and `encoding`, from the
// least parts to the whole.
// It stands on `state`, with `areas`, `runs` and `frames`, for what is laid out, and knows nothing of calls.
#![tactic(auto)]

pub use size::{AreaAt, At, Size};

pub mod size;
