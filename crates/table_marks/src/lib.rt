// The marks of a whole page table, and of the entries of one sandbox.
// It promises: held marks are told from the frames that the table names by the test of the definition (`marksb`, marks/specs/Marks.antt), and the frames of a
// sandbox are counted by their marks.
// It stands on `entry_pass` for the pass over the entries, and on `frames` for the marks.
#![tactic(auto)]

ghost use Rattle.std.specs.Prelude.{◌≡◌, ◌*◌, ◌≤◌, ◌<◌, length};
ghost use Rattle.interface.specs.Numbers.{most_frames, sandbox_entries, table_entries};
ghost use Rattle.frames.specs.Frames.{count_held};
ghost use Rattle.marks.specs.Marks.{marks_to, from, marksb};

use entry_pass::marks_of;
use frames::Held;
use marks::Marks;

// Whether the marks are those of the frames that the table names, each a frame of the pool and named once.
pub fn marks_match(held: Held, table: &[u16], frames: u8) -> bool
    requires table_len { length table.now ≡ table_entries }
    requires frames_bound { frames ≤ most_frames }
    ensures { result ≡ marksb frames held table.now }
{
    let found = marks_of(table, 0, Marks::ENTRIES, frames);
    found.good & found.held.same(held)
}

// How many frames the entries of one sandbox name, by the count of their marks.
pub fn frames_held(table: &[u16], sandbox: u8, frames: u8) -> u8
    requires table_len { length table.now ≡ table_entries }
    requires sandbox_bound { sandbox < 4 }
    requires frames_bound { frames ≤ most_frames }
    ensures { let own = from (sandbox * sandbox_entries) table.now in
        result ≡ count_held (marks_to frames own sandbox_entries).held }
{
    let first = sandbox as usize * Marks::SANDBOX_ENTRIES;
    let found = marks_of(table, first, Marks::SANDBOX_ENTRIES, frames);
    found.held.count()
}
