// The kept frames, tested (A3): "held and zero, belong to one run and no entry".
// It promises: the passes are those of kept/specs/Test, over the runs of a sandbox and over the kept frames; by the laws of `kept` the test is true exactly
// where `Spare` holds.
// It stands on `kept` for the test, on `runs` for the runs, on `marks` for what a pass finds, and on `frames` and `pages` for a frame and its bytes.
#![tactic(auto)]

ghost use Rattle.std.specs.Prelude.{◌≡◌, ◌&&◌, ◌+◌, ◌*◌, ◌≤◌, eqb, ltb, length, get_or};
ghost use Rattle.interface.specs.Numbers.{page_bytes, most_frames};
ghost use Rattle.basics.specs.Ranges.{every};
ghost use Rattle.runs.specs.Row.{row};
ghost use Rattle.kept.specs.Test.{add_run, runs_to, blankb, frame_ok};

use frames::{FrameNo, Held};
use marks::Marks;
use pages::Page;
use runs::Runs;

// The runs of one sandbox more; most often it keeps none.
pub fn add_runs(found: Marks, runs: Runs) -> Marks
    ensures { result ≡ runs_to (row runs) found 8 }
{
    if runs.is_none() {
        return found;
    }
    let mut all = found;
    for run in runs.list {
        all = add_run(all, run);
    }
    all
}

// One run more: its frames come to those found, and none of them may be there already.
fn add_run(found: Marks, run: Held) -> Marks
    ensures { result ≡ add_run found run }
{
    Marks {
        good: found.held.apart(run) & found.good,
        held: found.held.both(run),
    }
}

// Whether every kept frame is one of the pool, and zero: each is looked at, the smallest first, and no other.
pub fn frames_ok(kept: Held, pool: &[u8], frames: u8) -> bool
    requires frames_bound { frames ≤ most_frames }
    requires pool_len { length pool.now ≡ frames * page_bytes }
    ensures { result ≡ every (frame_ok frames pool.now kept) 0 most_frames }
{
    let mut rest = kept;
    for _ in 0..kept.count() {
        let f = FrameNo(rest.least());
        if !frame_ok(pool, frames, f) {
            return false;
        }
        rest = rest.without(f);
    }
    true
}

// Whether a frame is one of the pool, and zero.
fn frame_ok(pool: &[u8], frames: u8, f: FrameNo) -> bool
    requires { length pool.now ≡ frames * page_bytes }
    ensures { result ≡ (ltb f.0 frames && blankb pool.now f.0) }
{
    if frames <= f.0 {
        return false;
    }
    is_blank(pool, f)
}

// Whether a frame is zero.
fn is_blank(pool: &[u8], f: FrameNo) -> bool
    requires { f.0 * page_bytes + page_bytes ≤ length pool.now }
    ensures { result ≡ blankb pool.now f.0 }
{
    let start = usize::from(f.0) * Page::SIZE;
    is_zero(&pool[start..start + Page::SIZE])
}

// Whether all bytes are zero. All are looked at, which takes no branch.
fn is_zero(page: &[u8]) -> bool
    requires { length page.now ≡ page_bytes }
    ensures { result ≡ every (λ o. eqb (get_or page.now o 0) 0) 0 page_bytes }
{
    let mut zero = true;
    for byte in page {
        zero &= *byte == 0;
    }
    zero
}
