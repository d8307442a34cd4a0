// The image read from the file `image.bin`, for the programs.
// It promises how many bytes the image has, for each thing that can become of the file (`image_bytes`), and that one that cannot be read whole has a wrong
// length (specs/Image). It stands on `state` for which lengths are right, and on `streams` for the bytes; which bytes these are nothing proves.
#![tactic(auto)]

ghost use Rattle.std.specs.Prelude.{◌≡◌, ◌≤◌, length};
ghost use Rattle.image_file.specs.Image.{image_bytes};

use std::fs::{File, open};
use std::io::{ErrorKind, Read};
use streams::read_full;

// What became of `image.bin`. Neither an option nor a result: that it is missing is no failure, and the theorems name the three (`image_bytes Unreadable`).
#[derive(Clone, Copy, Debug, PartialEq, Eq)]
pub enum Found {
    Missing,
    Whole(usize),
    Unreadable,
}

impl Found {
    // How many bytes are asked for: "above 64" pages is a wrong length, and a byte more than 64 pages is enough to tell.
    pub const BYTES: usize = 16_385;
}

// How many bytes the image has: "missing: empty"; one that cannot be read whole has a wrong length.
pub fn image_bytes(found: Found) -> usize
    ensures { result ≡ image_bytes found }
{
    match found {
        Found::Missing => 0,
        Found::Whole(bytes) => bytes,
        Found::Unreadable => Found::BYTES,
    }
}

// Reads the image, of which a byte more than 64 pages is enough to tell that it has too many. A short read is the file's end, or a read that failed: one more
// read tells which, and where a file's end cannot be read at all, as a folder's, the image is not whole.
pub fn load(rt: &HostRuntime, image: &mut [u8]) -> Found
    requires { length image.old ≡ 16385 }
    ensures { image_bytes result ≤ length image.new }
{
    let mut file = match open(rt, "image.bin") {
        Ok(file) => file,
        Err(error) => return unopened(error.kind()),
    };
    let bytes = read_full(&mut file, image);
    if is_at_end(&mut file) {
        Found::Whole(bytes)
    } else {
        Found::Unreadable
    }
}

// What became of a file that cannot be opened: "missing" is the one that is not there.
fn unopened(kind: ErrorKind) -> Found
    ensures { image_bytes result ≤ 16385 }
{
    match kind {
        ErrorKind::NotFound => Found::Missing,
        _ => Found::Unreadable,
    }
}

// Whether one more read finds the file's end.
fn is_at_end(file: &mut File) -> bool {
    matches!(file.read(&mut [0]), Ok(0))
}
