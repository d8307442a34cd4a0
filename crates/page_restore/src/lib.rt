// A committed page still mapped, restored at a rewind: its case is found, and what section 3.2.2 of the REWIND paper says of that case is done.
// It promises: what is left is the store that rewind_cases/specs/Rewind defines of it (`rewind_page`, its front kept), whatever marks there are, and it tells
// "whether any byte differed" (specs/Differs, `page_differs`).
// It stands on `page_case` and `rewind_cases` for the cases and the definition, on `table` for entries and the store, on `pool` and `pages` for the bytes of a
// frame, and on `interface` for a page's backing.
#![tactic(auto)]

ghost use Rattle.std.specs.Prelude.{◌≡◌, true, ◌+◌, ◌*◌, ◌≤◌, ◌<◌, length};
ghost use Rattle.interface.specs.Numbers.{page_bytes, page_count, table_entries};
ghost use Rattle.frames.specs.declared.Held.{Held as Words};
ghost use Rattle.pages.specs.Parts.{frame, set_frame, zeros, differs};
ghost use Rattle.table.specs.Store.{kept, Ranged};
ghost use Rattle.table.specs.Backing.{backing_page, backing_end};
ghost use Rattle.rewind_cases.specs.Rewind.{rewind_page};
ghost use Rattle.page_restore.specs.Differs.{page_differs};

use frames::FrameNo;
use interface::{Backing, ImagePageNo, PageNo};
use page_case::case_of;
use pages::Page;
use rewind_cases::RewindCase;
use table::entry::frame_of;

// The page with its front entry at a place of the table, and with this backing, is restored by its case, in the paper's order, and whether any byte differed
// is told.
pub fn restore_page(
    pool: &mut [u8],
    table: &[u16],
    image: &[u8],
    at: usize,
    backing: Backing,
) -> bool
    requires at_bound { at + page_count < table_entries }
    requires ranged { Ranged page_bytes pool.old table.now }
    requires backing_in_bounds { backing_end backing * page_bytes ≤ length image.now }
    ensures table_after { (h : Words) → let table = table.entry.now in
        kept h pool.new table ≡ rewind_page image.now at (at + page_count) true backing (kept h pool.old table) }
    ensures differed { (h : Words) → let table = table.entry.now in
        result ≡ page_differs page_bytes at (at + page_count) (backing_page image.now backing) (kept h pool.old table) }
{
    let front = table[at];
    let back = table[at + PageNo::COUNT];
    match case_of(front, back, backing) {
        // "In the first case, the memory rewind operation does nothing"
        RewindCase::Shared => false,
        // "In the second case, we copy data from the buddy PTE's page to the original PTE's page."
        RewindCase::Copied => pool::restore_from(pool, frame_of(back), frame_of(front)),
        // "In the third case, the original PTE is preserved and the page is cleared to zero."
        RewindCase::Zeroed => restore_zeros(pool, frame_of(front)),
        // The fourth is ours: the front of an image page is preserved as well, and gets the image's bytes.
        RewindCase::ImagePage(page) => restore_image(pool, frame_of(front), image, page),
    }
}

// A frame becomes zero bytes, and whether any differed is told.
fn restore_zeros(pool: &mut [u8], f: FrameNo) -> bool
    requires { f.0 * page_bytes + page_bytes ≤ length pool.old }
    ensures pool_after { pool.new ≡ set_frame page_bytes pool.old f.0 (zeros page_bytes) }
    ensures differed { result ≡ differs page_bytes (frame page_bytes pool.old f.0) (zeros page_bytes) }
{
    let zeros = [0u8; Page::SIZE];
    pool::restore_frame(pool, f, &zeros)
}

// A frame gets the bytes of an image page, and whether any differed is told.
fn restore_image(pool: &mut [u8], f: FrameNo, image: &[u8], page: ImagePageNo) -> bool
    requires f_in_bounds { f.0 * page_bytes + page_bytes ≤ length pool.old }
    requires page_in_bounds { page.0 * page_bytes + page_bytes ≤ length image.now }
    ensures pool_after { pool.new ≡ set_frame page_bytes pool.old f.0 (frame page_bytes image.now page.0) }
    ensures differed { result ≡ differs page_bytes (frame page_bytes pool.old f.0) (frame page_bytes image.now page.0) }
{
    pool::restore_frame(pool, f, pages::part_of(image, page.0))
}
