// The lengths of what is lent, tested.
ghost use Rattle.std.specs.Prelude.{◌≡◌};
ghost use Rattle.state.specs.World.{whole_pages, lengths_ok};

use frames::FrameNo;
use interface::ImagePageNo;
use marks::Marks;
use pages::Page;

// Whether pool, table and image have a length that they may have.
pub fn lengths_ok(pool: usize, table: usize, image: usize) -> bool
    ensures { result ≡ lengths_ok pool table image }
{
    let pool_ok = whole_pages(1, FrameNo::COUNT, pool);
    let image_ok = whole_pages(0, ImagePageNo::COUNT, image);
    pool_ok & ((table == Marks::ENTRIES) & image_ok)
}

fn whole_pages(low: usize, high: usize, bytes: usize) -> bool
    ensures { result ≡ whole_pages low high bytes }
{
    let pages = bytes / Page::SIZE;
    (bytes % Page::SIZE == 0) & ((low <= pages) & (pages <= high))
}
