// A byte that a page starts with.
ghost use Rattle.std.specs.Prelude.{◌≡◌, ◌*◌, ◌≤◌, length, get_or};
ghost use Rattle.interface.specs.Numbers.{page_bytes};
ghost use Rattle.table.specs.Backing.{backing_page, backing_end};

use interface::Backing;

// One of the backing's bytes.
pub(crate) fn read_byte(image: &[u8], backing: Backing, offset: u8) -> u8
    requires { backing_end backing * page_bytes ≤ length image.now }
    ensures { result ≡ get_or (backing_page image.now backing) offset 0 }
{
    match backing {
        Backing::Anonymous => 0,
        Backing::Image(page) => pages::read(pages::part_of(image, page.0), offset as usize),
    }
}
