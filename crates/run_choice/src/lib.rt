// Which runs of kept frames are kept, taken and given up from, by their lengths and ages: definitions and laws, no code.
// It promises: the rules (specs/Runs) come to what the request says in its own words (specs/Keeping), proved in proofs/KeepingLaws.
// It stands on `interface` for requests and slots, and on `basics` for the best place of a row.

#![tactic(auto)]
