// Unmaps over gaps: which unmaps only row 14 can refuse, and a range's mapped pages as unmaps of their own. Definitions and laws, no code.
// It promises: what row 14 comes to for an unmap, and that one unmap of a range and those of its mapped pages alone are one (proofs/GapLaws, proofs/AloneLaws).
// It stands on `interface` for requests, slots and the table of refusals.

#![tactic(auto)]
