// The frames that the fronts of so many pages name, as one run.
// It promises that the run is the one that comes of the entries one by one (`fronts_to`); eight entries that name none are passed over together.
// It stands on `table` for the entries, and on `frames` for the marks of a run.
#![tactic(auto)]

ghost use Rattle.std.specs.Prelude.{◌≡◌, ℕ, ◌+◌, ◌≤◌, ◌<◌, length, get_or};
ghost use Rattle.interface.specs.Numbers.{page_count, sandbox_count, table_entries, most_frames};
ghost use Rattle.front_frames.specs.Fronts.{with_entry, with_entries, fronts_to};

use frames::Held;
use interface::PageNo;
use table::entry::{GROUP, are_empty, frame_of, front_index};

// The frames of the fronts of so many pages, eight of them looked at together.
pub fn fronts(table: &[u16], sandbox: u8, first: PageNo, pages: u8) -> Held
    requires sandbox_bound { sandbox < sandbox_count }
    requires pages_bound { first.0 + pages ≤ page_count }
    requires pages_nonzero { 0 < pages }
    requires table_len { length table.now ≡ table_entries }
    requires by_index { (k : ℕ) → get_or table.now k 0 ≤ most_frames }
    ensures { result ≡ fronts_to table.now sandbox first.0 pages }
{
    let groups = pages / GROUP;
    let at = front_index(sandbox, first);
    let mut run = Held::none();
    for k in 0..groups {
        let i = k * GROUP;
        run = with_group(run, table, at + i as usize);
    }
    let done = groups * GROUP;
    with_each(run, table, at + done as usize, pages - done)
}

// The frames that eight entries name come to the run. Where none names one, nothing is done.
fn with_group(run: Held, table: &[u16], at: usize) -> Held
    requires at_in_bounds { at + 8 ≤ length table.now }
    requires by_index { (k : ℕ) → get_or table.now k 0 ≤ most_frames }
    ensures { result ≡ with_entries table.now at run 8 }
{
    if are_empty(table, at) {
        return run;
    }
    with_each(run, table, at, GROUP)
}

// The frames that so many entries name come to the run, one by one.
fn with_each(run: Held, table: &[u16], at: usize, n: u8) -> Held
    requires n_in_bounds { at + n ≤ length table.now }
    requires by_index { (k : ℕ) → get_or table.now k 0 ≤ most_frames }
    ensures { result ≡ with_entries table.now at run n }
{
    let mut all = run;
    for entry in &table[at..at + n as usize] {
        all = with_entry(all, *entry);
    }
    all
}

// The frame that an entry names, if it names one, comes to the run.
fn with_entry(run: Held, entry: u16) -> Held
    requires { entry ≤ most_frames }
    ensures { result ≡ with_entry entry run }
{
    if entry == 0 {
        return run;
    }
    run.with(frame_of(entry))
}
