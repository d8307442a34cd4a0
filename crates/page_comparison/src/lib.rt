// Two pages compared, byte for byte, each where its bytes stand: in a frame of the pool, in the image, or nowhere, where all are zero.
// It promises: two pages are alike where all their bytes are, in the terms of table/specs/Store and Backing. Nothing is copied and nothing changes.
// It stands on `table` for entries and for what a page's bytes are, on `pages` for two parts compared, on `frames` for the number of a frame,
// and on `interface` for backings.
#![tactic(auto)]

ghost use Rattle.std.specs.Prelude.{◌≡◌, ◌*◌, ◌≤◌, length};
ghost use Rattle.interface.specs.Numbers.{page_bytes, most_frames};
ghost use Rattle.pages.specs.Parts.{same_bytes, zeros};
ghost use Rattle.table.specs.Store.{page_in, page_from};
ghost use Rattle.table.specs.Backing.{backing_page, backing_end};

use interface::Backing;
use pages::Page;
use table::entry::frame_of;

// Whether two pages have the same bytes. Each is the frame that its entry names; where that names none, it has its backing's bytes.
pub fn same_pages(
    pool: &[u8],
    image: &[u8],
    entry: u16,
    backing: Backing,
    other: u16,
    twin: Backing,
) -> bool
    requires bound { entry ≤ most_frames }
    requires in_bounds { entry * page_bytes ≤ length pool.now }
    requires backing_in_bounds { backing_end backing * page_bytes ≤ length image.now }
    requires other_bound { other ≤ most_frames }
    requires other_in_bounds { other * page_bytes ≤ length pool.now }
    requires twin_in_bounds { backing_end twin * page_bytes ≤ length image.now }
    ensures { result ≡ same_bytes page_bytes
        (page_from (backing_page image.now backing) (page_in page_bytes pool.now entry))
        (page_from (backing_page image.now twin) (page_in page_bytes pool.now other)) }
{
    let zero = [0u8; Page::SIZE];
    pages::is_same(
        bytes_of(pool, image, &zero, entry, backing),
        bytes_of(pool, image, &zero, other, twin),
    )
}

// The bytes of a page, where they stand: in the frame that its entry names, or else in the image, or in a page of zero bytes.
fn bytes_of<'a>(
    pool: &'a [u8],
    image: &'a [u8],
    zero: &'a [u8],
    entry: u16,
    backing: Backing,
) -> &'a [u8]
    requires zero_value { zero.now ≡ zeros page_bytes }
    requires bound { entry ≤ most_frames }
    requires in_bounds { entry * page_bytes ≤ length pool.now }
    requires backing_in_bounds { backing_end backing * page_bytes ≤ length image.now }
    ensures bytes { result.now ≡ page_from (backing_page image.now backing) (page_in page_bytes pool.now entry) }
    ensures len { length result.now ≡ page_bytes }
{
    if entry != 0 {
        return pages::part_of(pool, frame_of(entry).0);
    }
    match backing {
        Backing::Anonymous => zero,
        Backing::Image(page) => pages::part_of(image, page.0),
    }
}
