// "Rewind", area by area.
ghost use Rattle.std.specs.Prelude.{◌≡◌, ◌*◌, ◌<◌, length};
ghost use Rattle.interface.specs.Numbers.{page_bytes, page_count, sandbox_count, pages_in, sandbox_entries};
ghost use Rattle.table.specs.Store.{kept, Filed};
ghost use Rattle.rewind_cases.specs.Rewind.{rewind_to};
ghost use Rattle.rules.specs.Ready.{Ready};
ghost use Rattle.content.specs.Content.{copy_backing, changed};
ghost use Rattle.memory.specs.Memory.{keeps_front};

use area_rewind::{Rewound, free_before, with_area};
use areas::area::Areas;
use frames::Held;
use interface::PageNo;
use records::Record;

// The held marks after a rewind, and "the number of committed pages still mapped whose bytes differed from the snapshot".
#[derive(Clone, Copy)]
pub struct Restored {
    pub held: Held,
    pub changed: u8,
}

// "Rewind": each front keeps its frame with the snapshot's bytes, or is freed and cleared. A committed page agrees with the snapshot's in backing, so
// the present areas alone are looked up.
pub fn rewind(
    held: Held,
    pool: &mut [u8],
    table: &mut [u16],
    image: &[u8],
    b: Record,
    s: u8,
) -> Restored
    requires s_bound { s < sandbox_count }
    requires ready { Ready (pages_in (length image.now)) b }
    requires filed { Filed page_bytes (pages_in (length pool.old)) (kept held pool.old table.old) }
    ensures table_after { let before = kept held pool.old table.old in
        kept result.held pool.new table.new
        ≡ rewind_to image.now (s * sandbox_entries) (keeps_front b) (copy_backing b) before page_count }
    ensures changed { let before = kept held pool.old table.old in result.changed ≡ changed image.now before b s }
{
    let present = b.present;
    let count = present.count as usize;
    let mut done = Rewound {
        held,
        page: PageNo(0),
        changed: 0,
    };
    for k in 0..count {
        let area = present.list[k];
        done = with_area(done, pool, table, image, area, s);
    }
    let changed = done.changed;
    let marks = free_before(done, pool, table, s, Areas::PAGES);
    Restored {
        held: marks,
        changed,
    }
}
