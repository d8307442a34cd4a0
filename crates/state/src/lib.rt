// The machine's state: four sandboxes and the held marks, beside the lent pool, page table and image.
// It promises: what a sound state is (specs/Sound), what a start leaves (specs/Start), and which lent lengths are right.
// It stands on `records` for a sandbox's record and on `table`, `marks` and `kept` for the frames.
#![tactic(auto)]

pub mod lengths;
pub mod sandbox;

pub use lengths::lengths_ok;
pub use sandbox::{Machine, Sandbox};
