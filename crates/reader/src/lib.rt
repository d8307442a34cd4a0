// The roll's reader: the lent bytes, and the number of the line before which it stands.
// It promises that what is read is what that line says (`line_at` of `lines`): the 43 bytes there, or "A short last line"; and that it moves on by one line.
// It stands on `parser`, whose `line_at` does the work. `read_ahead` goes over lines with one reader.
#![tactic(auto)]

ghost use Rattle.std.specs.Prelude.{◌≡◌, ◌+◌, ◌<◌, ◌^◌};
ghost use Rattle.lines.specs.Lines.{line_at};

use lines::Line;
use parser::line_at;

// "The roll's reader goes over the lent bytes line by line"
#[derive(Clone, Copy)]
pub struct Reader<'a> {
    pub src: &'a [u8],
    pub line: usize,
}

impl<'a> Reader<'a> {
    // A reader before the first line.
    pub fn new(src: &'a [u8]) -> Reader<'a>
        ensures { (result.src ≡ src.entry) × (result.line ≡ 0) }
    {
        Reader { src, line: 0 }
    }

    // What the line says before which the reader stands.
    pub fn next(self) -> Line
        ensures { result ≡ line_at self.entry.src.now self.entry.line }
    {
        line_at(self.src, self.line)
    }

    // The reader, moved on by a line: "the next 43 bytes follow".
    pub fn skip(self) -> Reader<'a>
        requires { self.line + 1 < 2 ^ 64 }
        ensures { (result.src ≡ self.entry.src) × (result.line ≡ self.entry.line + 1) }
    {
        Reader {
            line: self.line + 1,
            ..self
        }
    }
}
