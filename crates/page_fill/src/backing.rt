// A frame filled with the bytes that a page starts with.
ghost use Rattle.std.specs.Prelude.{◌≡◌, ◌+◌, ◌*◌, ◌≤◌, length};
ghost use Rattle.interface.specs.Numbers.{page_bytes};
ghost use Rattle.pages.specs.Parts.{set_frame};
ghost use Rattle.table.specs.Backing.{backing_page, backing_end};

use frames::FrameNo;
use interface::Backing;

// A frame gets the backing's bytes.
pub(crate) fn fill_frame(pool: &mut [u8], f: FrameNo, image: &[u8], backing: Backing)
    requires f_in_bounds { f.0 * page_bytes + page_bytes ≤ length pool.old }
    requires backing_in_bounds { backing_end backing * page_bytes ≤ length image.now }
    ensures { let bytes = backing_page image.now backing in
        pool.new ≡ set_frame page_bytes pool.old f.0 bytes }
{
    match backing {
        Backing::Anonymous => pool::clear_frame(pool, f),
        Backing::Image(page) => pool::fill_frame(pool, f, pages::part_of(image, page.0)),
    }
}
