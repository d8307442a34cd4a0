// Request A1, "Still clean?": the lowest page at which a sandbox and its snapshot differ.
// It promises: the page is the one that comparing all 64 pages by what they read would find (`differing` of content/specs/Content), though a committed page
// with unchanged rights and no front is passed over. Nothing is changed.
// It stands on `area_agreement` for the areas compared, on `agreement` for one page, on `content` for what pages read, and on `rules` for what a record of a
// sound state is.
#![tactic(auto)]

ghost use Rattle.std.specs.Prelude.{◌≡◌, ◌<◌, length};
ghost use Rattle.interface.specs.Numbers.{page_bytes, sandbox_count, pages_in};
ghost use Rattle.frames.specs.declared.Held.{Held as Words};
ghost use Rattle.table.specs.Store.{kept, Ranged};
ghost use Rattle.rules.specs.Ready.{Ready};
ghost use Rattle.content.specs.Content.{differing};

use agreement::agrees;
use area_agreement::are_unchanged;
use areas::area::Areas;
use interface::PageNo;
use records::Record;

// Where a sandbox and its snapshot differ.
#[derive(Clone, Copy, Debug, PartialEq, Eq)]
pub struct Difference;

impl Difference {
    // "and 64 if they nowhere differ"
    pub const NOWHERE: u8 = Areas::PAGES;
}

// Page by page, up to the first page that differs. Where every area stands in the snapshot as it is, a page without a front is not even looked up.
pub fn lowest_difference(pool: &[u8], table: &[u16], image: &[u8], b: Record, s: u8) -> u8
    requires s_bound { s < sandbox_count }
    requires ready { Ready (pages_in (length image.now)) b }
    requires ranged { Ranged page_bytes pool.now table.now }
    ensures { (h : Words) → let before = kept h pool.now table.now in
        result ≡ differing image.now before b s }
{
    let present = b.present;
    let snapshot = b.snapshot;
    let same = are_unchanged(present, snapshot);
    for i in 0..Areas::PAGES {
        let page = PageNo(i);
        let front = table::entry::front(table, s, page);
        if !(same & (front == 0)) {
            let back = table::entry::back(table, s, page);
            let slot = present.slot(page);
            if same {
                if !agrees(pool, image, slot, slot, front, back) {
                    return i;
                }
            } else {
                let copied = snapshot.slot(page);
                if !agrees(pool, image, slot, copied, front, back) {
                    return i;
                }
            }
        }
    }
    Difference::NOWHERE
}
