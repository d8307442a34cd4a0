// The form of one area, tested: that it is as it should be by itself, that it starts behind the one before it and does not go on from it, that it is none.
// It promises: the tests of areas/specs/Formed that look at one area, or at one and the next, whatever numbers they hold.
// It stands on `areas` for what an area is, and on `limits` for the test of rights.
#![tactic(auto)]

ghost use Rattle.std.specs.Prelude.{◌≡◌, ◌&&◌, leb};
ghost use Rattle.areas.specs.Areas.{attributes_of};
ghost use Rattle.areas.specs.Formed.{goes_on, images_exist, proper, is_none};

use areas::area::Area;
use interface::{Backing, PageNo};
use limits::rights_ok;

// Whether the area is as it should be by itself, and starts no earlier than a page.
pub fn is_fitting(area: Area, end: usize, images: u8) -> bool
    ensures { result ≡ (proper images area && leb end area.first.0) }
{
    is_proper(area, images) & (end <= usize::from(area.first.0))
}

// Whether no area stands in the place.
#[tactic(auto, unfolding(areas::specs::Formed::is_none))]
pub fn is_none(area: Area) -> bool
    ensures { result ≡ is_none area }
{
    area == Area::none()
}

// Whether the area has a page, lies in 0 to 63, has rights 1 or 3, and its image pages exist.
#[tactic(auto, unfolding(areas::specs::Formed::proper))]
fn is_proper(area: Area, images: u8) -> bool
    ensures { result ≡ proper images area }
{
    let allowed = rights_ok(u16::from(area.rights))
        & images_exist(images, area.backing, area.pages);
    let inside = usize::from(area.first.0) + usize::from(area.pages) <= PageNo::COUNT;
    (area.pages != 0) & (inside & allowed)
}

// Whether the other area goes on where this one ends.
pub fn goes_on(area: Area, other: Area) -> bool
    ensures { result ≡ goes_on area other.first.0 (attributes_of other) }
{
    area.goes_on(other.first, other.attributes())
}

// Whether the image pages of so many pages exist.
fn images_exist(images: u8, backing: Backing, pages: u8) -> bool
    ensures { result ≡ images_exist images backing pages }
{
    match backing {
        Backing::Anonymous => true,
        Backing::Image(first) => usize::from(first.0) + usize::from(pages) <= usize::from(images),
    }
}
