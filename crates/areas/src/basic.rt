// The words of `basics` that the code of this layer uses.
ghost use Rattle.std.specs.Prelude.{◌≡◌};
ghost use Rattle.basics.specs.Ranges.{inside};

use interface::PageNo;

// Whether the page is one of the n pages from first on.
pub fn is_inside(first: PageNo, n: u8, page: PageNo) -> bool
    ensures { result ≡ inside first.0 n page.0 }
{
    let end = usize::from(first.0) + usize::from(n);
    (first.0 <= page.0) & (usize::from(page.0) < end)
}
