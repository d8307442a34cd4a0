// What a write gives up of a sandbox's runs of kept frames, and a frame that is not held (A3).
// It promises: a write gives up a frame of the longest run exactly where the share would be exceeded; the frame found is one that no entry names and no run
// keeps.
// It stands on `kept`, `runs` and `run_search` for the runs, on `marks` for the entries that name a frame, and on `free_frames` for one that is not held.
#![tactic(auto)]

ghost use Rattle.std.specs.Prelude.{◌≡◌, ℕ, ◌+◌, ◌*◌, ◌≤◌, ◌<◌, ltb, length};
ghost use Rattle.interface.specs.Numbers.{sandbox_count, table_entries, most_frames, sandbox_entries};
ghost use Rattle.frames.specs.Frames.{held};
ghost use Rattle.marks.specs.Named.{used_below};
ghost use Rattle.marks.specs.Marks.{from};
ghost use Rattle.runs.specs.Row.{row};
ghost use Rattle.kept.specs.Spare.{kept_by};
ghost use Rattle.reuse.specs.Reuse.{GaveUp};

use frames::{FrameNo, Held};
use free_frames::greatest_free;
use run_search::longest;
use runs::Runs;

// The runs, and the marks of all kept frames, once a frame was given up where it must be.
#[derive(Clone, Copy, Debug, PartialEq, Eq)]
pub struct Given {
    pub runs: Runs,
    pub kept: Held,
}

// "When a write would bring fronts, backs and kept frames above the share, one frame of the longest run is given up first": the smallest. Without the runs
// there is room for one more, so where nothing is kept nothing is counted.
pub fn give_up(table: &[u16], runs: Runs, kept: Held, share: u8, sandbox: u8) -> Given
    requires sandbox_bound { sandbox < sandbox_count }
    requires table_len { length table.now ≡ table_entries }
    requires table_bound { used_below (from (sandbox * sandbox_entries) table.now) sandbox_entries < share }
    ensures { let named = used_below (from (sandbox * sandbox_entries) table.now) sandbox_entries in
        GaveUp (ltb share (named + kept_by (row runs) + 1)) runs kept result }
{
    let most = runs.kept();
    if most == 0 || marks::used(table, sandbox) + most < u16::from(share) {
        return Given { runs, kept };
    }
    let place = longest(runs);
    let run = runs.at(place);
    let f = FrameNo(run.least());
    Given {
        runs: runs.with(place, run.without(f)),
        kept: kept.without(f),
    }
}

// The greatest frame that no entry names and no run keeps; there is one.
pub fn unheld_frame(named: Held, kept: Held, frames: u8) -> FrameNo
    requires frames_bound { frames ≤ most_frames }
    requires by_index { (f : ℕ) × ((f < frames) × ((held named f ≡ 0) × (held kept f ≡ 0))) }
    ensures result_lt_frames { result.0 < frames }
    ensures unnamed { held named result.0 ≡ 0 }
    ensures unkept { held kept result.0 ≡ 0 }
{
    greatest_free(named.both(kept), frames).unwrap_or(FrameNo(0))
}
