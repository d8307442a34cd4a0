// Packing: areas packed from what stands at each page, into "the longest runs of neighbouring pages that agree".
// It promises: what pages packed into the longest runs are, page by page from left to right (specs/Pack), and when a ninth would be needed; what the areas
// say after that is what was packed (proofs/PackLaws); they are well formed after every sensible change, and well formed areas packed again are the same
// (proofs/KeptLaws). One area more is put behind those that are packed (specs/ByAreas), as if its pages were put there one by one (proofs/RunLaws). They
// are packed anew after a change in `repacking`.
// It stands on `areas`, whose runs it makes, on `area_parts`, and on `basics` and `interface`.
#![tactic(auto)]

pub mod pack;

pub use pack::{Change, Packed};
