// Memory: what an accepted request makes of the lent memory and of the sandbox's runs, and its value: definitions and their laws, no code.
// It promises: for each call, what the parts of the code leave is the store, the runs and the value of specs/Memory (proofs/MemoryLaws, ValueLaws), and
// a state that is asked (specs/Parts) has the frames that a write gives up and takes and those that a map takes (proofs/SpareLaws); after a rewind kept
// frames are what is asked of them (proofs/RewindRuns). The code is in `rewinding` and `effects`.
// It stands on `table` for the store, on `rewind_cases` and `rewound_store` for a rewind of it, on `granting`, `reuse` and `kept` for the runs, on `content`
// for what a page reads, and on `rules` for what a request within its limits is.

#![tactic(auto)]
