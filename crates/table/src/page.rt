// A page of a sandbox, as it is handed to what reads, fills and restores it.
use interface::{PageNo, Slot};

// Whose page it is, its number, and what stands there.
#[derive(Clone, Copy, Debug, PartialEq, Eq)]
pub struct VirtualPage {
    pub sandbox: u8,
    pub number: PageNo,
    pub slot: Slot,
}
