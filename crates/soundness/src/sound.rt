// Soundness, computed: "A state is sound if ..".
ghost use Rattle.std.specs.Prelude.{◌≡◌, ◌&&◌, List, ℕ, ◌≤◌, ◌<◌, length};
ghost use Rattle.interface.specs.Numbers.{most_image_pages, sandbox_count, table_entries};
ghost use Rattle.basics.specs.Ranges.{every};
ghost use Rattle.frames.specs.declared.Held.{Held as Words};
ghost use Rattle.table.specs.Store.{kept};
ghost use Rattle.state.specs.World.{World, world_of, sandbox_at};
ghost use Rattle.record_soundness.specs.Test.{record_ok};
ghost use Rattle.page_test.specs.Pages.{pages_ok};
ghost use Rattle.soundness.specs.Test.{sandbox_ok, runs_ok_at, soundb};

use page_soundness::pages_ok;
use pages::Page;
use record_soundness::record_ok;
use records::Record;
use run_soundness::{runs_ok, spare_ok};
use state::lengths::lengths_ok;
use state::sandbox::{Machine, Sandbox};
use totals::shares;

// Whether the lent lengths are right and the state is sound. Whatever numbers it holds, nothing overflows and no index is out of range.
pub fn sound(m: Machine, pool: &[u8], table: &[u16], image: &[u8]) -> bool
    ensures { result ≡ soundb image.now (world_of m pool.now table.now) }
{
    if !lengths_ok(pool.len(), table.len(), image.len()) {
        return false;
    }
    let frames = (pool.len() / Page::SIZE) as u8;
    let images = (image.len() / Page::SIZE) as u8;
    let held = m.held;
    if !table_marks::marks_match(held, table, frames) {
        return false;
    }
    let sandboxes = m.sandboxes;
    if !sandboxes_ok(sandboxes, table, images) {
        return false;
    }
    if !spare_ok(sandboxes, held, pool, frames) {
        return false;
    }
    shares(sandboxes) <= frames as u16
}

// Each sandbox, then its runs.
fn sandboxes_ok(sandboxes: [Sandbox; Machine::SANDBOXES], table: &[u16], images: u8) -> bool
    requires images_bound { images ≤ most_image_pages }
    requires table_len { length table.now ≡ table_entries }
    ensures { ((h : Words) (pool : List ℕ) →
        let w : World = record { sandboxes = sandboxes; store = kept h pool table.now } in
        result ≡ every (λ s. sandbox_ok images w.store s (sandbox_at w s) && runs_ok_at w s) 0 4) }
{
    for s in 0..Machine::COUNT {
        let k = s as usize;
        let b = sandboxes[k];
        let rec = b.rec;
        if !sandbox_ok(rec, table, s, images) {
            return false;
        }
        // Read again, so that the runs are not kept at hand while the record is tested.
        let again = sandboxes[k];
        let runs = again.runs;
        if !runs_ok(runs, table, s, rec.opened, rec.share) {
            return false;
        }
    }
    true
}

// A sandbox but for its runs: its record, then its pages.
fn sandbox_ok(rec: Record, table: &[u16], s: u8, images: u8) -> bool
    requires s_bound { s < sandbox_count }
    requires images_bound { images ≤ most_image_pages }
    requires table_len { length table.now ≡ table_entries }
    ensures { (h : Words) (pool : List ℕ) →
        result ≡ (record_ok images rec && pages_ok (kept h pool table.now) s rec.present rec.snapshot) }
{
    if !record_ok(rec, images) {
        return false;
    }
    let present = rec.present;
    let snapshot = rec.snapshot;
    pages_ok(present, snapshot, table, s)
}
