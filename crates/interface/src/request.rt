// A request: one call of the roll.

// A line of the roll: the call's code, the sandbox that it names, and its parameters.
#[derive(Clone, Copy, Debug, PartialEq, Eq)]
pub struct Request {
    pub code: u16,
    pub sandbox: u16,
    pub p1: u16,
    pub p2: u16,
    pub p3: u16,
    pub p4: u16,
    pub p5: u16,
}

impl Request {
    // Codes of "The calls": "1. open"
    pub const OPEN: u16 = 1;
    // "2. map"
    pub const MAP: u16 = 2;
    // "3. unmap"
    pub const UNMAP: u16 = 3;
    // "4. protect"
    pub const PROTECT: u16 = 4;
    // "5. read"
    pub const READ: u16 = 5;
    // "6. write"
    pub const WRITE: u16 = 6;
    // "7. snapshot"
    pub const SNAPSHOT: u16 = 7;
    // "8. rewind"
    pub const REWIND: u16 = 8;
    // "9. report"
    pub const REPORT: u16 = 9;
    // request A1, "Still clean?": "Call 10"
    pub const COMPARE: u16 = 10;
    // "A call number added here or later is no longer refusal 2.": the greatest of them
    pub const LAST_CALL: u16 = Request::COMPARE;
    // "map: p1 first page, or 64 for the lowest gap that fits"
    pub const ANY_PAGE: u16 = 64;
    // "p3 backing, 0 anonymous ..
    pub const ANONYMOUS: u16 = 0;
    // .. 1 image"
    pub const IMAGE: u16 = 1;
    // "open: p1 share, 1 to 128"
    pub const MOST_SHARE: u16 = 128;
    // "write: p2 byte": 0 to 255
    pub const BYTE_VALUES: u16 = 256;
    // "Four sandboxes stand in a row, numbered 0 to 3."
    pub const SANDBOXES: usize = 4;
}
