// The record of a sandbox, tested: its areas and the snapshot's, the charge within the share, and that a closed one has nothing.
// It promises: the test of specs/Test, whatever numbers a record holds; every sound record passes it, and what passes is sound but for what is asked page by
// page of both areas (proofs/RecordLaws).
// It stands on `records`, which says what a sound record is, and on `area_soundness` for the areas. It knows nothing of frames.
#![tactic(auto)]

ghost use Rattle.std.specs.Prelude.{◌≡◌, ◌≤◌};
ghost use Rattle.interface.specs.Numbers.{most_image_pages};
ghost use Rattle.record_soundness.specs.Test.{fields_ok, record_ok};

use area_soundness::well_formed;
use records::Record;

// Whether the record is as a sound state asks, over an image of so many pages.
pub fn record_ok(rec: Record, images: u8) -> bool
    requires { images ≤ most_image_pages }
    ensures { result ≡ record_ok images rec }
{
    if !well_formed(rec.present, images) {
        return false;
    }
    if !well_formed(rec.snapshot, images) {
        return false;
    }
    if rec.share < rec.charge() {
        return false;
    }
    fields_ok(
        rec.opened,
        rec.share,
        rec.taken,
        rec.present.count,
        rec.snapshot.count,
    )
}

// An open sandbox has a share; one without a snapshot has no area of it; a closed one has nothing. `!!` is to the letter what the definition has.
#[tactic(auto, unfolding(crate::specs::Test::fields_ok))]
fn fields_ok(opened: bool, share: u8, taken: bool, present: u8, snapshot: u8) -> bool
    ensures { result ≡ fields_ok opened share taken present snapshot }
{
    let shared = !opened | ((1 <= share) & (share <= Record::MOST_SHARE));
    let untaken = !!taken | (snapshot == 0);
    let closed = !!opened | ((share == 0) & ((present == 0) & !taken));
    shared & (untaken & closed)
}
