// Lines of a roll answered one after the other: of each the request is called, and the reply is printed at its place.
// It promises that each reply is that of the machine's step, or refusal 1 where the line is malformed, and that nothing else of the output changes
// (`RepliedTo`, by `Turned` and `Replied` of `roll`).
// It stands on `line_numbers` for the lines, on `asking` for what a line asks, on `rewind_call`, `in_place`, `writing` and `performing` for a call on one
// sandbox, on `totals` for what the sandboxes have together, on `reply_text` for the reply printed, and on `roll` for what a reply is and for what is known
// of a state.
#![tactic(auto)]

ghost use Rattle.std.specs.Prelude.{◌≡◌, ◌+◌, ◌*◌, ◌/◌, ◌≤◌, length};
ghost use Rattle.columns.specs.Sizes.{printed_numbers, reply_bytes};
ghost use Rattle.line_numbers.specs.Numbers.{line_number_count};
ghost use Rattle.roll.specs.Known.{Known};
ghost use Rattle.replying.specs.Playing.{played_by, RepliedTo};

use asking::ask;
use frames::Held;
use interface::Request;
use line_numbers::{NUMBERS, line_in};
use performing::act;
use reply_text::print_answer;
use rewind_call::rewind_sandbox;
use state::sandbox::{Machine, Sandbox};
use totals::put_together;
use writing::write;

// A roll that is being played: the machine's sandboxes and held marks, whether its state is sound, the number of the roll's first line, and how many lines are
// answered. The machine stands here in its parts, so that a line takes one sandbox out and puts one back, and the others stay where they are.
#[derive(Clone, Copy)]
pub struct Playing {
    pub sandboxes: [Sandbox; Machine::SANDBOXES],
    pub held: Held,
    pub sound: bool,
    pub first: u32,
    pub answered: usize,
}

// The lines whose numbers these are, one after the other, each with its reply: 19 bytes of out. The machine's sandboxes stay where they are from line to line,
// and a call takes one of them out and puts one back.
pub fn reply_lines<'a, 'b>(
    mut playing: Playing,
    pool: &'a mut [u8],
    table: &'a mut [u16],
    image: &'b [u8],
    numbers: &'b [u16],
    out: &'a mut [u8],
) -> Playing
    requires { let n = length numbers.now / line_number_count in
        ((playing.answered + n) * reply_bytes ≤ length out.old)
        × (playing.first + (playing.answered + n) ≤ printed_numbers)
        × Known playing.sound image.now (played_by playing pool.old table.old) }
    ensures { let before = played_by playing pool.old table.old in
        let k = playing.answered in
        let n = length numbers.now / line_number_count in
        RepliedTo image.now numbers.now playing.first k before out.old
        n out.new (played_by result pool.new table.new)
        × (result.first ≡ playing.first) × (result.answered ≡ k + n) × (result.sound ≡ playing.sound) }
{
    let n = numbers.len() / NUMBERS;
    let mut i: usize = 0;
    while i < n {
        let line = line_in(numbers, i);
        i += 1;
        let at = playing.answered;
        let number = playing.first + at as u32;
        playing.answered = at + 1;
        let asked = ask(playing.sound, line);
        match asked {
            Err(why) => {
                print_answer(out, at, number, Err(why));
                continue;
            }
            Ok(q) => {
                let k = q.sandbox as usize;
                let b = playing.sandboxes[k];
                let held = playing.held;
                // a rewind asks nothing of the other sandboxes
                if q.code == Request::REWIND {
                    let rewound = rewind_sandbox(b, held, pool, table, image, q);
                    let after = rewound.sandbox;
                    let marks = rewound.held;
                    playing.sandboxes[k] = after;
                    playing.held = marks;
                    let answer = rewound.answer;
                    print_answer(out, at, number, answer);
                    continue;
                }
                // what leaves every sandbox
                if let Some(answer) = in_place::answer(b, pool, table, image, q) {
                    print_answer(out, at, number, answer);
                    continue;
                }
                let sandboxes = playing.sandboxes;
                let all = put_together(sandboxes, held, q);
                // a write that was left is not refused, and its page takes a frame
                if q.code == Request::WRITE {
                    let left = write(b, all, pool, table, image, q);
                    let rec = b.rec;
                    let runs = left.runs;
                    let marks = left.held;
                    playing.sandboxes[k] = Sandbox { rec, runs };
                    playing.held = marks;
                    print_answer(out, at, number, Ok(0));
                    continue;
                }
                let acted = act(b, all, pool, table, image, q);
                let after = acted.sandbox;
                let marks = acted.held;
                playing.sandboxes[k] = after;
                playing.held = marks;
                let answer = acted.answer;
                print_answer(out, at, number, answer);
            }
        }
    }
    playing
}
