// The eight places of a sandbox for areas and for runs in bytes, written, read and tested.
// It promises: the bytes, and what is read of them, are those of layout/specs/Layout (`areas_bytes`, `areas_from`, `is_areas`, `runs_bytes`, `runs_from`).
// It stands on `layout` for the definitions and their laws, on `fields` for a row of them, and on `areas` and `runs` for what is laid out.
#![tactic(auto)]

pub use area::{decode_areas, encode_areas, is_areas};
pub use run::{decode_runs, encode_runs};

pub mod area;
pub mod run;
