// A frame filled with the bytes of a page: those of the frame that an entry names, or those that the page starts with.
// It promises: the pool is left with that frame's bytes replaced (`set_frame`) by what table/specs says the page reads there (`page_from`), and no other.
// It stands on `table` for entries and backings, on `pool` and `pages` for the bytes of a frame, and on `interface` for a page's backing.
#![tactic(auto)]

ghost use Rattle.std.specs.Prelude.{◌≡◌, ◌+◌, ◌*◌, ◌≤◌, length};
ghost use Rattle.interface.specs.Numbers.{page_bytes, most_frames};
ghost use Rattle.pages.specs.Parts.{set_frame};
ghost use Rattle.table.specs.Store.{page_in, page_from};
ghost use Rattle.table.specs.Backing.{backing_page, backing_end};

use frames::FrameNo;
use interface::Backing;
use table::entry::frame_of;

mod backing;

// Frame `f` gets the bytes of the frame that an entry names, or the backing's where it names none.
pub fn fill_frame(pool: &mut [u8], f: FrameNo, entry: u16, image: &[u8], backing: Backing)
    requires f_in_bounds { f.0 * page_bytes + page_bytes ≤ length pool.old }
    requires bound { entry ≤ most_frames }
    requires in_bounds { entry * page_bytes ≤ length pool.old }
    requires backing_in_bounds { backing_end backing * page_bytes ≤ length image.now }
    ensures { pool.new ≡ set_frame page_bytes pool.old f.0
        (page_from (backing_page image.now backing) (page_in page_bytes pool.old entry)) }
{
    if entry == 0 {
        crate::backing::fill_frame(pool, f, image, backing);
        return;
    }
    pool::copy_frame(pool, frame_of(entry), f);
}
