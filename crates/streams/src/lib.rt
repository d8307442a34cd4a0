// Bytes read from a stream until a buffer is full, and bytes written to standard output, for the programs.
// It promises how many bytes stand in the buffer at most; which bytes a stream gives or takes nothing proves.
// It stands on the library's streams alone.
#![tactic(auto)]

ghost use Rattle.std.specs.Prelude.{◌≤◌, length, IsTrue};
ghost use Rattle.std.specs.Io.KnownBytes.{Appends};

use std::io::{Error, Read, Result, Write};

// Reads until the buffer is full, the stream ends or a read fails, and says how many bytes it put at the buffer's start, as
// `read_exact` does not.
pub fn read_full<R: Read>(stream: &mut R, buf: &mut [u8]) -> usize
    ensures { result ≤ length buf.new }
{
    let mut done = 0;
    while done < buf.len() {
        let got = read_some(stream, &mut buf[done..]);
        if got == 0 {
            break;
        }
        done += got;
    }
    done
}

// How many bytes one read put at the buffer's start: none where the stream has ended, or where the read failed.
fn read_some<R: Read>(stream: &mut R, buf: &mut [u8]) -> usize
    ensures { result ≤ length buf.new }
{
    stream.read(buf).unwrap_or(0)
}

// Writes all of the bytes and says so; or stops where the stream takes no more, says why on standard error, and says that it did not. Of a stream that tells
// what it holds: where all were written, it holds them behind what it held.
pub fn write_output<W: Write>(rt: &HostRuntime, stream: &mut W, bytes: &[u8]) -> bool
    ensures { IsTrue result → Appends (W.contents stream.old) (W.contents stream.new) bytes.now }
{
    match stream.write_all(bytes) {
        Ok(()) => true,
        Err(error) => {
            let _ = say_why(rt, &error);
            false
        }
    }
}

// Says on standard error why standard output takes no more: the system's words for it, without its number where there is memory to leave that out.
fn say_why(rt: &HostRuntime, error: &Error) -> Result<()> {
    match format!(in rt.alloc(); "{error}") {
        Ok(text) => match text.as_str().split_once(" (os error ") {
            Some((reason, _)) => eprintln!(rt; "stdout: {reason}"),
            None => eprintln!(rt; "stdout: {text}"),
        },
        Err(_) => eprintln!(rt; "stdout: {error}"),
    }
}
