// An area, a sandbox's areas, and what stands at a page as they say it.
ghost use Rattle.std.specs.Prelude.{◌≡◌, ◌≤◌, ◌<◌, take};
ghost use Rattle.interface.specs.Numbers.{page_count};
ghost use Rattle.interface.specs.Slots.{start_of};
ghost use Rattle.areas.specs.Areas.{none, empty, attributes_of, covers, slot_of, slots, Near};
ghost use Rattle.areas.specs.Formed.{goes_on};

use crate::basic::is_inside;
use interface::{Attributes, Backing, PageNo, Slot};
use slots::{follows, page_on};

// "Each area has a backing: anonymous, or image with its first image page. It has rights .. and a mark"
#[derive(Clone, Copy, Debug, PartialEq, Eq)]
pub struct Area {
    pub first: PageNo,
    pub pages: u8,
    pub rights: u8,
    pub committed: bool,
    pub backing: Backing,
}

// The first `count` places hold areas, the others none. The number stands beside a fixed list, since memory is fixed: there is no heap.
#[derive(Clone, Copy, Debug, PartialEq, Eq)]
pub struct Areas {
    pub count: u8,
    pub list: [Area; Area::MOST],
}

impl Areas {
    // "Each has 64 pages"
    pub const PAGES: u8 = PageNo::COUNT as u8;

    // No areas: nothing is mapped.
    pub fn empty() -> Self
        ensures { result ≡ empty }
    {
        Areas {
            count: 0,
            list: [Area::none(); Area::MOST],
        }
    }

    // The areas that it holds.
    pub fn as_slice(&self) -> &[Area]
        requires { self.now.count ≤ 8 }
        ensures { result.now ≡ take self.now.count self.now.list }
    {
        &self.list[..usize::from(self.count)]
    }

    // What stands at a page.
    pub fn slot(self, page: PageNo) -> Slot
        requires near { Near self.list }
        requires page_bound { page.0 < page_count }
        ensures { result ≡ slots self page.0 }
    {
        for area in self.list.iter() {
            if area.covers(page) {
                return area.slot(page);
            }
        }
        Slot::Unmapped
    }
}

impl Area {
    // "A sandbox has at most 8."
    pub const MOST: usize = 8;

    // What stands in a place without an area.
    pub fn none() -> Self
        ensures { result ≡ none }
    {
        Area {
            first: PageNo(0),
            pages: 0,
            rights: 0,
            committed: false,
            backing: Backing::Anonymous,
        }
    }

    // What stands at the area's first page.
    pub fn attributes(self) -> Attributes
        ensures { result ≡ attributes_of self }
    {
        Attributes {
            rights: self.rights,
            committed: self.committed,
            backing: self.backing,
        }
    }

    // Whether the page is one of the area's.
    pub(crate) fn covers(self, page: PageNo) -> bool
        ensures { result ≡ covers self page.0 }
    {
        is_inside(self.first, self.pages, page)
    }

    // Whether a page goes on where the area ends.
    pub fn goes_on(self, page: PageNo, t: Attributes) -> bool
        ensures { result ≡ goes_on self page.0 t }
    {
        let behind = usize::from(self.first.0) + usize::from(self.pages) == usize::from(page.0);
        let agrees = (self.rights == t.rights)
            & ((self.committed == t.committed) & follows(self.backing, self.pages, t.backing));
        behind & agrees
    }

    // What stands at a page of the area.
    pub(crate) fn slot(self, page: PageNo) -> Slot
        requires backing_bound { start_of self.backing ≤ page_count }
        requires page_bound { page.0 < page_count }
        requires first_le_page { self.first.0 ≤ page.0 }
        ensures { result ≡ slot_of self page.0 }
    {
        page_on(self.attributes(), page.0 - self.first.0)
    }
}
