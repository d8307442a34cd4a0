// The bytes of one page, which is a lent part of the pool, of the image or of a local array.
// It promises what each function leaves in the part, byte for byte, and laws (proofs/) of parts and frames for any page length. A part is restored in
// `part_restore`.
// It stands on the shared words alone, and has a size of its own. Which page of several is meant is a plain number here: a frame's and an image page's number
// are types of their own, and name the same part.
#![tactic(auto)]

ghost use Rattle.std.specs.Prelude.{◌≡◌, ◌+◌, ◌*◌, ◌≤◌, ◌<◌, length, get_or, set};
ghost use Rattle.interface.specs.Numbers.{page_bytes};
ghost use Rattle.pages.specs.Parts.{zeros, frame, same_bytes};

// "a page has 256 bytes"
#[derive(Clone, Copy, Debug, PartialEq, Eq)]
pub struct Page;

impl Page {
    pub const SIZE: usize = 256;
}

// The bytes of one of several pages in a row, where they stand.
pub fn part_of(bytes: &[u8], number: u8) -> &[u8]
    requires { number * page_bytes + page_bytes ≤ length bytes.now }
    ensures part { result.now ≡ frame page_bytes bytes.now number }
    ensures len { length result.now ≡ page_bytes }
{
    let start = number as usize * Page::SIZE;
    &bytes[start..start + Page::SIZE]
}

// Every byte of the part becomes zero.
#[tactic(auto, unfolding(crate::specs::Parts::zeros))]
pub fn clear(part: &mut [u8])
    ensures { part.new ≡ zeros (length part.old) }
{
    part.fill(0);
}

// The bytes of the part become those of `src`.
pub fn fill(part: &mut [u8], src: &[u8])
    requires { length part.old ≡ length src.now }
    ensures { part.new ≡ src.now }
{
    part.copy_from_slice(src);
}

// The bytes of a page, by value.
pub fn load(part: &[u8]) -> [u8; Page::SIZE]
    requires { length part.now ≡ page_bytes }
    ensures { result ≡ part.now }
{
    let mut page = [0u8; Page::SIZE];
    page.copy_from_slice(part);
    page
}

// One byte is stored.
pub fn store(part: &mut [u8], offset: usize, byte: u8)
    requires { offset < length part.old }
    ensures { part.new ≡ set part.old offset byte }
{
    part[offset] = byte;
}

// One byte is read.
pub fn read(part: &[u8], offset: usize) -> u8
    requires { offset < length part.now }
    ensures { result ≡ get_or part.now offset 0 }
{
    part[offset]
}

// Whether two parts of the same length have the same bytes. All are compared, which takes no branch.
pub fn is_same(part: &[u8], other: &[u8]) -> bool
    requires { length part.now ≡ length other.now }
    ensures { result ≡ same_bytes (length part.now) part.now other.now }
{
    part.iter()
        .zip(other.iter())
        .fold(true, |same, (byte, twin)| same & (*byte == *twin))
}
