// Areas: a sandbox's mapped pages as at most 8 runs, and what stands at each page as they say it.
// It promises: what the areas say of a page (specs/Areas) is computed as it is defined; what well formed areas are (specs/Formed), that their test says
// just that (proofs/FormedLaws), that a walk along them says at each page what they say (proofs/WalkLaws), and that they are told by what they say
// (proofs/ToldLaws). They are tested in `area_soundness`, their pages counted in `area_counts`, gaps found in `area_gaps`, and they are packed in `packing`.
// It stands on `basics` and `interface`, whose words for slots it uses.
#![tactic(auto)]

pub mod area;
pub mod basic;

pub use area::{Area, Areas};
pub use basic::is_inside;
