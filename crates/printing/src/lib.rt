// Lines of a roll put into lent output one behind the other, or only counted.
// It promises: a line stands where its number says, and nothing else of the output changes; where lines are only counted, nothing does.
// It stands on `printer` for a request printed and on `archive` for the text of a roll.
#![tactic(auto)]

ghost use Rattle.std.specs.Prelude.{◌≡◌, [], ◌∷◌, ◌+◌, ◌<◌};
ghost use Rattle.columns.specs.Sizes.{most_lines};
ghost use Rattle.archive.specs.Archive.{only};
ghost use Rattle.printing.specs.Put.{placed, put, Room};

use interface::Request;
use lines::Line;
use printer::print_request;

// Where the next line goes, from 0 on, and whether lines are written or only counted.
#[derive(Clone, Copy, Debug, PartialEq, Eq)]
pub struct Cursor {
    pub line: u32,
    pub writes: bool,
}

impl Cursor {
    // The cursor behind one more line.
    fn next(self) -> Cursor
        requires { self.line < most_lines }
        ensures { result ≡ record { line = self.line + 1; writes = self.writes } }
    {
        Cursor {
            line: self.line + 1,
            ..self
        }
    }
}

// Puts a line at the cursor, and answers the cursor behind it.
pub fn put_line(out: &mut [u8], to: Cursor, q: Request) -> Cursor
    requires { Room to out.old (q ∷ []) }
    ensures { placed result out.new ≡ put to out.old (q ∷ []) }
{
    if !to.writes {
        return to.next();
    }
    let start = to.line as usize * Line::BYTES;
    let end = start + Line::BYTES;
    print_request(&mut out[start..end], q);
    to.next()
}

// The same where a test holds, and else nothing.
pub fn put_if(out: &mut [u8], to: Cursor, q: Request, there: bool) -> Cursor
    requires { Room to out.old (only there q) }
    ensures { placed result out.new ≡ put to out.old (only there q) }
{
    if !there {
        return to;
    }
    put_line(out, to, q)
}
