// One page compared with the snapshot's, where the bytes stand.
// It promises: the test of a page is `agree` of comparison/specs/Compare, by the bytes that both read. No byte is looked at of a page that is committed,
// has unchanged rights and no front.
// It stands on `comparison` for what is compared, on `page_comparison` for the bytes, and on `slots` for what stands at a page.
#![tactic(auto)]

ghost use Rattle.std.specs.Prelude.{◌≡◌, true, ◌*◌, ◌≤◌, length};
ghost use Rattle.interface.specs.Numbers.{page_bytes, most_frames};
ghost use Rattle.interface.specs.Slots.{is_committed, backing_at};
ghost use Rattle.comparison.specs.Compare.{agree};
ghost use Rattle.pages.specs.Parts.{same_bytes};
ghost use Rattle.table.specs.Store.{page_in, page_from, under_front};
ghost use Rattle.table.specs.Backing.{backing_page, backing_end};

use interface::Slot;
use slots::{backing_at, is_committed, is_mapped, rights_at};

// Whether a page agrees with the snapshot's in being mapped, in rights and in bytes, from what stands there in both and from its front and back entries.
pub fn agrees(
    pool: &[u8],
    image: &[u8],
    present: Slot,
    snapshot: Slot,
    front: u16,
    back: u16,
) -> bool
    requires front_bound { front ≤ most_frames }
    requires front_in_bounds { front * page_bytes ≤ length pool.now }
    requires back_bound { back ≤ most_frames }
    requires back_in_bounds { back * page_bytes ≤ length pool.now }
    requires present_in_bounds { backing_end (backing_at present) * page_bytes ≤ length image.now }
    requires snapshot_in_bounds { backing_end (backing_at snapshot) * page_bytes ≤ length image.now }
    requires present_value { is_committed present ≡ true → backing_at present ≡ backing_at snapshot }
    ensures { let now-front = page_in page_bytes pool.now front in
        let now-back = page_in page_bytes pool.now back in
        let own = under_front (is_committed present) (backing_page image.now (backing_at present)) now-back in
        let copied = page_from (backing_page image.now (backing_at snapshot)) now-back in
        result ≡ agree present snapshot (same_bytes page_bytes (page_from own now-front) copied) }
{
    if !is_mapped(present) {
        return !is_mapped(snapshot);
    }
    if !is_mapped(snapshot) {
        return false;
    }
    if rights_at(present) != rights_at(snapshot) {
        return false;
    }
    // "A committed page with unchanged rights and no front is passed over": no byte is looked at.
    if is_committed(present) & (front == 0) {
        return true;
    }
    page_comparison::same_pages(
        pool,
        image,
        front,
        backing_at(present),
        back,
        backing_at(snapshot),
    )
}
