// What follows from the demands, stated of the machine that runs and proved; no code.
// It promises (proofs/Claims) the tables by their examples and the refusals of wrong lent lengths (specs/TurnedBack), and what the requests for call 10, for
// a rewind's value and its cases, for unmaps over gaps and for kept frames say beyond the demands (specs/StillClean, specs/PutBack, specs/RewindCases,
// specs/OverGaps, specs/KeepsNothing).
// It stands on `claims` for the demands, and on `simulation` for the laws of one call.

#![tactic(auto)]
