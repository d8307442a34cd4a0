// The rules: what an accepted request makes of its sandbox's record. No lent memory is touched here.
// It promises: `packed_after` gives the areas that result, and `record_after` the record, of specs/After; specs/Ready says what the code asks to be safe.
// It stands on `records`, `areas`, `area_gaps`, `packing`, `repacking` and `interface`.
#![tactic(auto)]

pub mod after;

pub use after::{first_of, packed_after, record_after};
