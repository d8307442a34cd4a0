// The segments of an archive roll that tell of a snapshot's pages, put into lent output or only counted: its maps, its writes, its protects.
// It promises: the maps and protects put are those of the snapshot's areas, place by place (specs/ByAreas), the writes those of its pages (specs/ByPages); and
// of well formed areas these are the lines of the roll (proofs/AreaLaws). Pool, table and image are only read.
// It stands on `page_writes` for the writes of a page, on `printing` for a line put, on `areas` and `table` for the snapshot, and on `archive` for the roll.
#![tactic(auto)]

use areas::area::Areas;
pub use maps::put_maps;
pub use protects::put_protects;
pub use writes::put_writes;

mod by_area;
pub mod maps;
pub mod protects;
pub mod writes;

// A snapshot, as the state has it: whose it is, its sandbox's share, and its areas.
#[derive(Clone, Copy)]
pub struct Snapshot {
    pub sandbox: u8,
    pub share: u8,
    pub areas: Areas,
}
