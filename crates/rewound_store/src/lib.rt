// The store after a rewind: laws, no code.
// It promises (proofs/): what the fronts of a rewound sandbox and what every other entry holds then (RewindLaws), what a loop over its pages carries along and
// how runs of pages come together (RunLaws), and what a rewind leaves as it was (LeftLaws).
// It stands on `rewind_cases` for the definition, whose edits are tried without these laws, and on `table` for the store and its laws.

#![tactic(auto)]
