// The roll's text printed: a reply, and a request, into the bytes of a line.
// It promises that what is printed is the line that `lines` defines, for a reply and for a request, and so the one form of a request that the parser takes.
// It stands on `field_text` for a number printed as a field, and on `lines` for what a line has in its columns.
#![tactic(auto)]

ghost use Rattle.std.specs.Prelude.{◌≡◌, ◌≤◌, length};
ghost use Rattle.columns.specs.Prints.{printed_request, printed_reply};
ghost use Rattle.columns.specs.Sizes.{line_bytes, reply_bytes};

use field_text::print_at;
use interface::Request;
use lines::Line;

// Prints a reply, "line number from 1, refusal number or 0, value", and a line feed, into 19 bytes.
pub fn print_reply(out: &mut [u8], line: u32, number: u32, value: u32)
    requires out_len { length out.old ≡ reply_bytes }
    requires line_bound { (line ≤ 999999) × (number ≤ 999999) × (value ≤ 999999) }
    ensures { out.new ≡ printed_reply line number value }
{
    print_at(out, Line::REPLY_LINE, line);
    print_at(out, Line::REPLY_NUMBER, number);
    print_at(out, Line::REPLY_VALUE, value);
    out[Line::REPLY_FEED] = b'\n';
}

// Prints a request, "call, sandbox, p1 to p5", and a line feed, into 43 bytes.
pub fn print_request(out: &mut [u8], q: Request)
    requires { length out.old ≡ line_bytes }
    ensures { out.new ≡ printed_request q }
{
    print_at(out, Line::CODE, u32::from(q.code));
    print_at(out, Line::SANDBOX, u32::from(q.sandbox));
    print_at(out, Line::P1, u32::from(q.p1));
    print_at(out, Line::P2, u32::from(q.p2));
    print_at(out, Line::P3, u32::from(q.p3));
    print_at(out, Line::P4, u32::from(q.p4));
    print_at(out, Line::P5, u32::from(q.p5));
    out[Line::FEED] = b'\n';
}
