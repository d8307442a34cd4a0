// The archive roll of the snapshot that the machine keeps: what is answered and written where it is asked for, and what its replay gives. No code.
// It promises (specs/Claims) that what is written is the plain machine's; that the machine, started anew with the same image and pool and given the roll,
// accepts every line and has the snapshot again, as snapshot and as present pages; that its archive roll is then the same;
// and that the text is read as the roll.
// It stands on `archive` for the roll, on `claims` for runs of the machine, on `roll` for what lines say.

#![tactic(auto)]
