// Kept frames beside the store of pages (A3): the runs that keep them, what is asked of them, and the test of it. Definitions and laws, no code.
// It promises (proofs/): the test is true exactly where kept frames are "held and zero, belong to one run and no entry" (`Spare`), and each operation on the
// store keeps that (of a rewind it is shown in `memory`). The test is computed in `kept_soundness`, a run is granted to entries in `granting`.
// It stands on `runs` for the runs, on `marks` for what a pass finds, on `pages` for the bytes of a frame and on `table` for the store.

#![tactic(auto)]
