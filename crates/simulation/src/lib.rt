// The machine's step beside the plain machine's, as definitions and laws; no code.
// It promises (proofs/) that a step keeps the two machines together, as specs/Agrees says, and answers what the plain machine answers (Simulate); that a sound
// state stays sound (AnySound); what a refused and an accepted call leave (StepLaws, AcceptedLaws); and that a write finds the frame that it takes (TakenLaws).
// A reader of the claims needs specs/Lent alone: what a start that is not refused is given.
// It stands on `machine`, whose `step` is what `call` ensures, and on `plain`.

#![tactic(auto)]
