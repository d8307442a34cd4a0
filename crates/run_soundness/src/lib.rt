// The runs of kept frames, tested (A3): those of a sandbox within its share, and the frames that all of them keep.
// It promises: the test of specs/Test for the runs of a sandbox (proofs/RunLaws: true exactly of sound ones), and that of kept/specs/Test for the kept frames;
// of the pool it reads the kept frames alone, and where a sandbox keeps none its entries are not counted.
// It stands on `runs` and `marks` for what a sandbox's runs and entries come to, and on `totals` and `kept` for the kept frames.
#![tactic(auto)]

ghost use Rattle.std.specs.Prelude.{◌≡◌, List, ℕ, ◌*◌, ◌≤◌, ◌<◌, length, get_or};
ghost use Rattle.interface.specs.Numbers.{page_bytes, sandbox_count, table_entries, most_frames, sandbox_entries};
ghost use Rattle.frames.specs.declared.Held.{Held as Words};
ghost use Rattle.marks.specs.Named.{used_below};
ghost use Rattle.marks.specs.Marks.{from};
ghost use Rattle.table.specs.Store.{kept as store_of};
ghost use Rattle.runs.specs.Row.{row};
ghost use Rattle.kept.specs.Spare.{Rows};
ghost use Rattle.kept.specs.Test.{spareb};
ghost use Rattle.state.specs.World.{closed_sandbox};
ghost use Rattle.run_soundness.specs.Test.{runs_ok};

use frames::Held;
use runs::Runs;
use state::sandbox::{Machine, Sandbox};
use totals::kept_marks;

// Whether kept frames "are held and zero, belong to one run and no entry".
pub fn spare_ok(
    sandboxes: [Sandbox; Machine::SANDBOXES],
    held: Held,
    pool: &[u8],
    frames: u8,
) -> bool
    requires frames_bound { frames ≤ most_frames }
    requires pool_len { length pool.now ≡ frames * page_bytes }
    ensures { ((table : List ℕ) → let rows : Rows = λ s. row (get_or sandboxes s closed_sandbox).runs in
        result ≡ spareb frames (store_of held pool.now table) rows) }
{
    let found = kept_marks(sandboxes);
    if !found.good {
        return false;
    }
    if !held.apart(found.held) {
        return false;
    }
    kept_soundness::frames_ok(found.held, pool, frames)
}

// Whether the runs of a sandbox are within its share with its fronts and backs, which alone are; and a closed one keeps none.
// Where no frame is kept, no entry is looked at.
pub fn runs_ok(runs: Runs, table: &[u16], s: u8, opened: bool, share: u8) -> bool
    requires s_bound { s < sandbox_count }
    requires table_len { length table.now ≡ table_entries }
    requires table_bound { used_below (from (s * sandbox_entries) table.now) sandbox_entries ≤ share }
    ensures { (h : Words) (pool : List ℕ) →
        result ≡ runs_ok (store_of h pool table.now) s opened share runs }
{
    if runs.is_none() {
        return true;
    }
    if !opened {
        return false;
    }
    marks::used(table, s) + runs.kept() <= u16::from(share)
}
