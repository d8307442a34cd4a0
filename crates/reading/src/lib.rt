// Reading: a byte of a page, where it stands: nothing is copied and nothing changes.
// It promises: the byte is the one that "A page reads its front frame; else, if committed, its back frame; else zero bytes or its image page" names,
// in the terms of table/specs/Store, Backing and Virtual.
// It stands on `table` for entries and the store, on `frame_bytes` and `pages` for a byte of a frame and of the image, on `frames`,
// and on `slots` and `interface` for what stands at a page.
#![tactic(auto)]

mod backing;
pub mod store;

pub use store::read_byte;
