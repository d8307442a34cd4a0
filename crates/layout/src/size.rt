// How many bytes each part of the layout has, and where it stands: the numbers of specs/Layout, under the same names.
// Each of the three types only gives its constants one name, `Size::AREA`.
use areas::area::Area;
use runs::Runs;
use state::sandbox::Machine;

#[derive(Clone, Copy)]
pub struct Size;

impl Size {
    // First page, pages, rights, mark, kind of backing, first image page: a byte each.
    pub const AREA: usize = 6;

    pub const PLACES: usize = Area::MOST * Size::AREA;

    pub const AREAS: usize = 1 + Size::PLACES;

    // 64 bits.
    pub const WORD: usize = 8;

    pub const MARKS: usize = 2 * Size::WORD;

    pub const RUNS: usize = Runs::PLACES * Size::MARKS;

    pub const SANDBOX: usize = At::RUNS + Size::RUNS;

    pub const STATE: usize = At::HELD + Size::MARKS;
}

// Where the held marks stand in the bytes of a state, and the parts of a sandbox in its own.
#[derive(Clone, Copy)]
pub struct At;

impl At {
    pub const HELD: usize = Machine::SANDBOXES * Size::SANDBOX;

    pub const OPENED: usize = 0;

    pub const SHARE: usize = 1;

    pub const TAKEN: usize = 2;

    pub const PRESENT: usize = 3;

    pub const SNAPSHOT: usize = At::PRESENT + Size::AREAS;

    pub const RUNS: usize = At::SNAPSHOT + Size::AREAS;
}

// Where each byte of an area stands.
#[derive(Clone, Copy)]
pub struct AreaAt;

impl AreaAt {
    pub const FIRST: usize = 0;

    pub const PAGES: usize = 1;

    pub const RIGHTS: usize = 2;

    pub const MARK: usize = 3;

    pub const KIND: usize = 4;

    pub const IMAGE_PAGE: usize = 5;
}
