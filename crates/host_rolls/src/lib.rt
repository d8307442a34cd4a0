// What a roll played from a start leaves in the memory that a host lends, and what the C header promises of it: definitions and theorems. No code.
// It promises (specs/Promised) that from `FromStart`, the contract of the code in `from_start`, all follows that the header says: the replies are the plain
// machine's, what is left in pool and table is what demand 3 says, and where a lent length is wrong pool and table stay and every line is refused.
// It stands on `roll` for a roll played and its replies, and on `claims` for what a run leaves.

#![tactic(auto)]
