// Filling: what is put into the frames of pages. A write stores a byte, and a page's front takes a frame filled with what the page reads.
// It promises: what is left is the store that table/specs/Store defines of it (`store_byte`, `take`); the laws of these stand in `table`.
// It stands on `page_fill` for the bytes that a frame gets, on `table` for entries and the store, on `frame_bytes` for a byte of a frame, on `frames` for the
// held marks, and on `slots` and `interface` for what stands at a page.
#![tactic(auto)]

pub mod store;

pub use store::{store_byte, take};
