// The runs that a rewind makes (A3), worked out area by area from the table before the rewind.
// It promises: the runs are those that the definition gathers page by page (`row_rewound`); nothing is done for committed and image areas,
// so that the work goes with the pages of the uncommitted anonymous ones.
// It stands on `areas` for the areas, on `front_frames` for the frames of an area's fronts, on `run_push` for the competition of runs, and on `kept` for the
// definition.
#![tactic(auto)]

ghost use Rattle.std.specs.Prelude.{◌≡◌, List, ℕ, ◌+◌, ◌≤◌, ◌<◌, length, get_or};
ghost use Rattle.interface.specs.Numbers.{page_count, sandbox_count, table_entries, most_frames};
ghost use Rattle.run_choice.specs.Runs.{is_spared};
ghost use Rattle.interface.specs.declared.page.Slot.TheVariants.{Mapped};
ghost use Rattle.frames.specs.declared.Held.{Held as Words};
ghost use Rattle.table.specs.Store.{kept as store_of};
ghost use Rattle.runs.specs.Row.{row, tabled, pushed};
ghost use Rattle.kept.specs.Spare.{row_rewound};
ghost use Rattle.areas.specs.Areas.{attributes_of, slots};
ghost use Rattle.areas.specs.Walk.{Formed};
ghost use Rattle.gathering.specs.AreaRun.{run_of};

use areas::area::{Area, Areas};
use front_frames::fronts;
use run_push::push;
use runs::Runs;
use slots::is_anonymous;

// "the frames of each uncommitted anonymous area, if any, are .. kept as one run": the runs with those of the areas, the lower page the older.
pub fn gathered(table: &[u16], present: Areas, runs: Runs, sandbox: u8) -> Runs
    requires sandbox_bound { sandbox < sandbox_count }
    requires formed { Formed present }
    requires table_len { length table.now ≡ table_entries }
    requires by_index { (k : ℕ) → get_or table.now k 0 ≤ most_frames }
    ensures { (h : Words) (pool : List ℕ) →
        result ≡ tabled (row_rewound (store_of h pool table.now) sandbox (slots present) (row runs)) }
{
    let count = usize::from(present.count);
    let mut all = runs;
    for area in &present.list[..count] {
        all = push_area(table, *area, all, sandbox);
    }
    all
}

// The run of one area more. An area without a front makes a run of none, which changes nothing.
fn push_area(table: &[u16], area: Area, runs: Runs, sandbox: u8) -> Runs
    requires sandbox_bound { sandbox < sandbox_count }
    requires pages_bound { area.first.0 + area.pages ≤ page_count }
    requires pages_nonzero { 0 < area.pages }
    requires table_len { length table.now ≡ table_entries }
    requires by_index { (k : ℕ) → get_or table.now k 0 ≤ most_frames }
    ensures { result ≡ pushed runs (run_of table.now sandbox area) }
{
    if !is_spared(area) {
        return runs;
    }
    push(runs, fronts(table, sandbox, area.first, area.pages))
}

// Whether the area is uncommitted and anonymous.
fn is_spared(area: Area) -> bool
    ensures { result ≡ is_spared (Mapped (attributes_of area)) }
{
    !area.committed & is_anonymous(area.backing)
}
