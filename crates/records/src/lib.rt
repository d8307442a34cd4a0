// A sandbox's record: whether it is open, its share, its areas, and the snapshot's areas. Whatever a machine does with frames, it keeps this for a sandbox, and
// refusals and areas are decided from it alone.
// It promises: the charge, computed; what a sound record is (specs/Sound), and that what refusals are decided from is settled of one (proofs/SettledLaws).
// It stands on `areas` for the mappings, and on `area_counts` for the pages that are charged.
#![tactic(auto)]

ghost use Rattle.std.specs.Prelude.{◌≡◌};
ghost use Rattle.interface.specs.Slots.{charge_of};
ghost use Rattle.areas.specs.Areas.{slots};
ghost use Rattle.areas.specs.Walk.{Formed};
ghost use Rattle.records.specs.Record.{closed_record, copy_of};
ghost use Rattle.records.specs.Record.{with_opened, with_share, with_present, with_taken, with_snapshot};

use area_counts::{mapped_pages, uncommitted_pages};
use areas::area::Areas;
use interface::Request;

// What is kept for a sandbox: whether it is open, its share, its areas, whether a snapshot was taken, and the snapshot's areas.
#[derive(Clone, Copy, Debug, PartialEq, Eq)]
pub struct Record {
    pub opened: bool,
    pub share: u8,
    pub present: Areas,
    pub taken: bool,
    pub snapshot: Areas,
}

impl Record {
    // "share, 1 to 128"
    pub const MOST_SHARE: u8 = Request::MOST_SHARE as u8;

    // "2 × the snapshot's pages": each may have a front and a back.
    const FRAMES_A_COPY: u8 = 2;

    // A closed sandbox has nothing.
    pub fn closed() -> Record
        ensures { result ≡ closed_record }
    {
        Record {
            opened: false,
            share: 0,
            present: Areas::empty(),
            taken: false,
            snapshot: Areas::empty(),
        }
    }

    // One setter for each field.
    pub fn with_opened(self, opened: bool) -> Record
        ensures { result ≡ with_opened opened self }
    {
        Record { opened, ..self }
    }

    pub fn with_share(self, share: u8) -> Record
        ensures { result ≡ with_share share self }
    {
        Record { share, ..self }
    }

    pub fn with_present(self, present: Areas) -> Record
        ensures { result ≡ with_present present self }
    {
        Record { present, ..self }
    }

    pub fn with_taken(self, taken: bool) -> Record
        ensures { result ≡ with_taken taken self }
    {
        Record { taken, ..self }
    }

    pub fn with_snapshot(self, snapshot: Areas) -> Record
        ensures { result ≡ with_snapshot snapshot self }
    {
        Record { snapshot, ..self }
    }

    // The charge: "its mapped pages before a snapshot. Afterwards it is 2 × the snapshot's pages, mapped or not, plus the uncommitted mapped pages."
    pub fn charge(self) -> u8
        requires formed { Formed self.present }
        requires formed_2 { Formed self.snapshot }
        ensures { result ≡ charge_of (slots self.present) (copy_of self) }
    {
        if !self.taken {
            return mapped_pages(self.present);
        }
        Record::FRAMES_A_COPY * mapped_pages(self.snapshot) + uncommitted_pages(self.present)
    }
}
