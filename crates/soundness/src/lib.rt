// Soundness, computed.
// It promises: a test that is true exactly of the sound states (specs/Test, proofs/TestLaws), whatever numbers a state holds; and that a sound state has a
// frame for every mapped page without a front (proofs/Room).
// It stands on `state`, which says what a sound state is, on `record_soundness`, `page_soundness` and `run_soundness` for a sandbox's record, pages and runs,
// on `table_marks` for the entries, and on `totals` for the shares.
#![tactic(auto)]

pub mod sound;
