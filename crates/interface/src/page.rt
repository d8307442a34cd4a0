// What a page of a sandbox is: its number, its backing, its rights and its mark.

// A page number: which of a sandbox's 64 pages.
#[derive(Clone, Copy, Debug, PartialEq, Eq)]
pub struct PageNo(pub u8);

impl PageNo {
    // "Each has 64 pages, so addresses 0 to 16,383."
    pub const COUNT: usize = 64;
    // "a page has 256 bytes"
    pub const BYTES: usize = 256;
    // "so addresses 0 to 16,383"
    pub const ADDRESSES: usize = PageNo::COUNT * PageNo::BYTES;
}

// An image page number: which of the image's pages.
#[derive(Clone, Copy, Debug, PartialEq, Eq)]
pub struct ImagePageNo(pub u8);

impl ImagePageNo {
    // "The image, read only, is 0 to 64 pages of 256 bytes."
    pub const COUNT: usize = 64;
}

// What a page holds before the first write to it: zero bytes, or a page of the image.
#[derive(Clone, Copy, Debug, PartialEq, Eq)]
pub enum Backing {
    Anonymous,
    Image(ImagePageNo),
}

// Rights are 1 for read, 3 for read and write. The mark says whether the page is committed.
#[derive(Clone, Copy, Debug, PartialEq, Eq)]
pub struct Attributes {
    pub rights: u8,
    pub committed: bool,
    pub backing: Backing,
}

impl Attributes {
    // "rights, 1 for read"
    pub const READ: u8 = 1;
    // "or 3 for read and write"
    pub const READ_WRITE: u8 = 3;
}

// What stands at a page.
#[derive(Clone, Copy, Debug, PartialEq, Eq)]
pub enum Slot {
    Unmapped,
    Mapped(Attributes),
}
