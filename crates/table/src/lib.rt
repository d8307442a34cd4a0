// The buddy page table: which frame of the lent pool each page of each sandbox has at its front and at its back.
// Table, pool and held marks are one store of pages (specs/Store). It promises: entries are read and moved as they are defined; and by its
// laws (proofs/), each act on the store changes what its own entry holds and no other's, the marks stay those of the frames named, and a frame
// that is given up is zero. So nothing above speaks of a frame but for the one that a write takes. Fronts are freed in `freeing` and filled in
// `filling`, pages are read in `reading`, and what a rewind makes of a page stands in `rewind_cases`.
// It stands on `pages` for the bytes of a frame, on `frames` for the held marks, on `marks` for the frames that entries name, and on
// `interface` for what a page is.
#![tactic(auto)]

pub mod entry;
pub mod page;

pub use entry::{are_empty, back, back_if, frame_of, front, front_index, move_fronts};
pub use page::VirtualPage;
