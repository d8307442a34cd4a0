// The machine: ten calls over a state by value and lent pool, page table and image.
// It promises: whatever is handed to it, `call` ends with the number, value, state, pool and table of `step` (step/specs/Step), the frames that a write takes
// and gives up being the only thing left open; a refused call leaves state, pool and table as they were. It asks nothing of its caller.
// It stands on `soundness` for the test of a state, on `rewind_call`, `in_place` and `performing` for a call on one sandbox, and on `totals` for what the
// sandboxes have together.
#![tactic(auto)]

ghost use Rattle.std.specs.Prelude.{◌≡◌};
ghost use Rattle.state.specs.World.{world_of};
ghost use Rattle.step.specs.Step.{Stepped};
ghost use Rattle.step.specs.Reply.{outcome_of};

use interface::{Refusal, Request};
use performing::act;
use rewind_call::rewind_sandbox;
use soundness::sound::sound;
use state::sandbox::Machine;
use step::Reply;
use totals::put_together;

// One request. Whatever is handed in, it ends with the outcome of `step`.
pub fn call(machine: Machine, pool: &mut [u8], table: &mut [u16], image: &[u8], q: Request) -> Reply
    ensures { let before = world_of machine pool.old table.old in
        Stepped image.now before q (outcome_of result pool.new table.new) }
{
    if !codes::is_call(q) {
        return Reply {
            machine,
            answer: Err(Refusal::NoSuchCall),
        };
    }
    if !sound(machine, pool, table, image) {
        return Reply {
            machine,
            answer: Err(Refusal::Unsound),
        };
    }
    if q.sandbox as usize >= Machine::SANDBOXES {
        return Reply {
            machine,
            answer: Err(Refusal::NotOpen),
        };
    }
    let k = q.sandbox as usize;
    let mut m = machine;
    let sandboxes = m.sandboxes;
    let b = sandboxes[k];
    // a rewind asks nothing of the other sandboxes
    if q.code == Request::REWIND {
        let rewound = rewind_sandbox(b, m.held, pool, table, image, q);
        let back = rewound.sandbox;
        let marks = rewound.held;
        let value = rewound.answer;
        m.sandboxes[k] = back;
        m.held = marks;
        return Reply {
            machine: m,
            answer: value,
        };
    }
    if let Some(answer) = in_place::answer(b, pool, table, image, q) {
        return Reply { machine: m, answer };
    }
    let all = put_together(sandboxes, m.held, q);
    let acted = act(b, all, pool, table, image, q);
    let after = acted.sandbox;
    let held = acted.held;
    let answer = acted.answer;
    m.sandboxes[k] = after;
    m.held = held;
    Reply {
        machine: m,
        answer: answer,
    }
}
