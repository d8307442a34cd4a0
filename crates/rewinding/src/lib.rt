// Rewinding: what a rewind makes of the store, area by area, and how many pages it finds changed.
// It promises: the store after it is the `rewind_to` of rewind_cases/specs/Rewind, with the fronts that memory/specs/Memory keeps (`keeps_front`) and the
// snapshot's backings, and the number of pages is the one that content/specs/Content defines of the store before it (`changed`). It works in proportion to the
// fronts there are: of the other entries, eight are looked at together.
// It stands on `area_rewind` for one area and the pages before it, on `rewind_cases` for the definition, on `areas`, along which it goes, on `memory` for the
// definitions of what is kept and their laws, on `content` for the backing of a page without a back, and on `rules` for what well formed areas are asked.
#![tactic(auto)]

pub mod store;

pub use store::{Restored, rewind};
