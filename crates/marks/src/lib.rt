// The marks of the frames that the entries of a lent page table name, as one pass over the entries finds them; no pool.
// It promises: whatever numbers the table holds, the pass says whether "entries name frames of the pool, no frame twice", and has the
// marks of these frames. specs/Named.antt says what that means, proofs/MarkLaws.antt that the pass says it, and that it counts the entries
// that name a frame. The pass is made in `entry_pass`; here the entries of a sandbox that name a frame are counted, and whether none of some names one
// is told.
// It stands on `frames`, for the marks and the number of a frame.
#![tactic(auto)]

ghost use Rattle.std.specs.Prelude.{◌≡◌, ◌+◌, ◌*◌, ◌≤◌, ◌<◌, eqb, length, get_or};
ghost use Rattle.basics.specs.Ranges.{every};
ghost use Rattle.interface.specs.Numbers.{sandbox_entries, table_entries};
ghost use Rattle.marks.specs.Marks.{from};
ghost use Rattle.marks.specs.Named.{used_below};

use frames::Held;

// What a pass over entries found: whether each names none or a frame of the pool, and none names a frame twice; and the marks of these frames.
#[derive(Clone, Copy)]
pub struct Marks {
    pub good: bool,
    pub held: Held,
}

impl Marks {
    // The entries of the page table, and those of one sandbox.
    pub const ENTRIES: usize = 512;

    pub const SANDBOX_ENTRIES: usize = 128;

    // How many entries are looked at together.
    pub const TOGETHER: usize = 8;
}

// Whether no entry of these names a frame. All are looked at, which takes no branch.
pub fn names_none(entries: &[u16]) -> bool
    ensures { result ≡ every (λ j. eqb (get_or entries.now j 0) 0) 0 (length entries.now) }
{
    entries
        .iter()
        .fold(true, |none, entry| none & (*entry == 0))
}

// How many entries of a sandbox name a frame.
pub fn used(table: &[u16], sandbox: u8) -> u16
    requires sandbox_bound { sandbox < 4 }
    requires table_len { length table.now ≡ table_entries }
    ensures value { result ≡ used_below (from (sandbox * sandbox_entries) table.now) sandbox_entries }
    ensures small { result ≤ sandbox_entries }
{
    let first = sandbox as usize * Marks::SANDBOX_ENTRIES;
    naming(&table[first..first + Marks::SANDBOX_ENTRIES])
}

// How many entries of these name a frame.
fn naming(entries: &[u16]) -> u16
    requires { length entries.now ≤ sandbox_entries }
    ensures { result ≡ used_below (λ k. get_or entries.now k 0) (length entries.now) }
{
    entries.iter().map(|entry| u16::from(*entry != 0)).sum()
}
