// The step of the machine: what a request answers and leaves, given the frame that a write takes and the one that it gives up. Definitions and laws,
// and the types of a reply and of what a call on one sandbox leaves.
// It promises: a refused call answers its row's number and leaves the world; what a sound state gives to the parts of an accepted call (proofs/CallLaws);
// and the step is the one with a rewind without cases, as it was defined before (proofs/BeforeLaws).
// It stands on `soundness` for row 3, on `rules` for what becomes of a sandbox's record, and on `memory` for what becomes of the lent memory.
#![tactic(auto)]

use frames::Held;
use interface::Answer;
use state::sandbox::{Machine, Sandbox};

// A state, and what the call answers.
#[derive(Clone, Copy)]
pub struct Reply {
    pub machine: Machine,
    pub answer: Answer,
}

// What a call on one sandbox leaves and answers: the sandbox, the marks of the frames that entries name, and the answer.
#[derive(Clone, Copy)]
pub struct Acted {
    pub sandbox: Sandbox,
    pub held: Held,
    pub answer: Answer,
}
