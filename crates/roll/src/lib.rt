// A roll played, as definitions and theorems; the code is in `playing`.
// It promises (proofs/) that of a whole roll from a start the replies are the plain machine's, or the refusals of a wrong length (specs/Replies), that
// parts of a roll played one after the other are one roll played (`Joins`, specs/Join), that every number printed has room in its columns, and that whether a
// state is sound is known from its start on, without a test at each line (`Known`, specs/Known).
// It stands on `lines` for the text, on `machine` for the call, on `claims` and `consequences` for what the replies are, and on `soundness` for the test.

#![tactic(auto)]
