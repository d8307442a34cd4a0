// The reply to a line, printed at its place of the output.
// It promises that the 19 bytes of its place are the answer's number and value under the line's number, and that the rest of the output is as it was.
// It stands on `codes` for the number and the value of an answer, and on `printer` for the print.
#![tactic(auto)]

ghost use Rattle.std.specs.Prelude.{◌≡◌, ◌++◌, ◌+◌, ◌*◌, ◌≤◌, length, take, drop};
ghost use Rattle.interface.specs.Answers.{number_of, value_of};
ghost use Rattle.columns.specs.Prints.{printed_reply};
ghost use Rattle.columns.specs.Sizes.{most_number, most_printed, reply_bytes};

use interface::Answer;
use lines::Line;
use printer::print_reply;

// Prints an answer under its line's number, as the reply with this place, from 0 on.
pub fn print_answer(out: &mut [u8], place: usize, line: u32, answer: Answer)
    requires place_in_bounds { place * reply_bytes + reply_bytes ≤ length out.old }
    requires line_bound { (line ≤ most_printed) × (value_of answer ≤ most_number) }
    ensures { let before = out.old in let reply = printed_reply line (number_of answer) (value_of answer) in
        out.new
        ≡ take (place * reply_bytes) before ++ (reply ++ drop (place * reply_bytes + reply_bytes) before) }
{
    let at = place * Line::REPLY;
    let end = at + Line::REPLY;
    print(&mut out[at..end], line, answer);
}

// Prints an answer under its line's number, into 19 bytes.
fn print(out: &mut [u8], line: u32, answer: Answer)
    requires out_len { length out.old ≡ reply_bytes }
    requires line_bound { (line ≤ most_printed) × (value_of answer ≤ most_number) }
    ensures { out.new ≡ printed_reply line (number_of answer) (value_of answer) }
{
    print_reply(
        out,
        line,
        u32::from(codes::number(answer)),
        codes::value(answer),
    )
}
