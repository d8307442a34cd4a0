// What is claimed of the plain machine, for every list of calls: definitions and theorems, no code.
// It promises (proofs/) the two-lists claim, what a rewound sandbox is, the limits after every list, what call 10 and an unmap over gaps say, and that a
// machine that keeps nothing has the same places, bytes and refusals.
// It stands on `plain`, and on `interface` for requests and refusals.

#![tactic(auto)]
