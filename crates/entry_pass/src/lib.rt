// One pass over entries of a lent page table, for the marks of the frames that they name; no pool.
// It promises: what is found is what the pass of the definition finds (`marks_to`, marks/specs/Marks.antt); that frames named twice show at the end
// alone, where more entries name a frame than frames are marked, is proved in proofs/PassLaws.antt.
// It stands on `marks` for the definition and for eight entries that name none, and on `frames` for the marks.
#![tactic(auto)]

ghost use Rattle.std.specs.Prelude.{◌≡◌, ◌+◌, ◌^◌, ◌≤◌, ◌<◌, length, fold};
ghost use Rattle.interface.specs.Numbers.{most_frames};
ghost use Rattle.marks.specs.Marks.{marks_to, from};
ghost use Rattle.entry_pass.specs.Pass.{pass_entry};

use frames::{FrameNo, Held};
use marks::{Marks, names_none};

// The pass as it is kept: whether no entry names a frame past the pool, how many name a frame of it, and the marks of these frames.
#[derive(Clone, Copy)]
struct Pass {
    inside: bool,
    named: usize,
    held: Held,
}

impl Pass {
    // One more entry, of a table over a pool of so many frames.
    fn add(self, frames: u8, entry: u16) -> Pass
        requires frames_bound { frames ≤ most_frames }
        requires named_bound { self.named + 1 < 2 ^ 64 }
        ensures { result ≡ pass_entry frames self entry }
    {
        if entry == 0 {
            return self;
        }
        if entry > frames as u16 {
            return Pass {
                inside: false,
                ..self
            };
        }
        Pass {
            named: self.named + 1,
            held: self.held.with(FrameNo((entry - 1) as u8)),
            ..self
        }
    }

    // More entries, one after another.
    fn add_each(self, frames: u8, entries: &[u16]) -> Pass
        requires frames_bound { frames ≤ most_frames }
        requires named_bound { self.named + length entries.now < 2 ^ 64 }
        ensures { result ≡ fold (pass_entry frames) self entries.now }
    {
        let mut found = self;
        for entry in entries {
            found = found.add(frames, *entry);
        }
        found
    }
}

// The marks of the frames that a run of entries names.
pub fn marks_of(table: &[u16], first: usize, entries: usize, frames: u8) -> Marks
    requires entries_in_bounds { first + entries ≤ length table.now }
    requires frames_bound { frames ≤ most_frames }
    ensures { result ≡ marks_to frames (from first table.now) entries }
{
    let mut found = Pass {
        inside: true,
        named: 0,
        held: Held::none(),
    };
    // Most often eight entries in a row name no frame, and nothing changes.
    let groups = entries / Marks::TOGETHER;
    for k in 0..groups {
        let at = first + k * Marks::TOGETHER;
        let group = &table[at..at + Marks::TOGETHER];
        if !names_none(group) {
            found = found.add_each(frames, group);
        }
    }
    found = found.add_each(
        frames,
        &table[first + groups * Marks::TOGETHER..first + entries],
    );
    // A frame that is named twice is marked once.
    Marks {
        good: found.inside & (found.held.count() as usize == found.named),
        held: found.held,
    }
}
