// Freeing: fronts given up. "Freed and cleared to zero": their frames are cleared and no longer held; at a start that is all there is.
// It promises: what is left is the store that table/specs/Store defines of it (`free_to`, `cleared`); the laws of these stand in `table`.
// It stands on `entry_release` for the page of one entry, on `table` for entries and the store, on `pool` for the bytes that a start clears,
// on `frames` for the held marks, and on `interface` for the number of a page.
#![tactic(auto)]

pub mod store;

pub use store::{free_range, start};
