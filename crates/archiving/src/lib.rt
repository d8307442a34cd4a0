// The archive roll of a sandbox's snapshot, written into lent output: "A roll for the archive box".
// It promises: whatever is lent, answer and output are those of `written` (`replay`, specs/Snapshot). A refusal leaves every byte of the output; else the roll
// stands at its start, and what is past it stays. State, pool, table and image are only read.
// It stands on `whole_roll` for the roll, on `segments` for the snapshot, on `soundness` for the test of the state, and on `replay` for what is promised.
#![tactic(auto)]

ghost use Rattle.std.specs.Prelude.{◌≡◌};
ghost use Rattle.state.specs.World.{world_of};
ghost use Rattle.replay.specs.Snapshot.{written};
ghost use Rattle.whole_roll.specs.Whole.{left};

use interface::{Answer, Refusal};
use segments::Snapshot;
use soundness::sound::sound;
use state::sandbox::Machine;
use whole_roll::put_fitting;

// "The answer is the number of lines; output memory past them is untouched. .. any refusal leaves all output memory untouched."
pub fn write_archive(
    machine: Machine,
    pool: &[u8],
    table: &[u16],
    image: &[u8],
    sandbox: u16,
    out: &mut [u8],
) -> Answer
    ensures { let world = world_of machine pool.now table.now in
        left result out.new ≡ written image.now world sandbox out.old }
{
    if !sound(machine, pool, table, image) {
        return Err(Refusal::Unsound);
    }
    let k = sandbox as usize;
    if k >= Machine::SANDBOXES {
        return Err(Refusal::NotOpen);
    }
    let b = machine.sandboxes[k].rec;
    if !b.opened {
        return Err(Refusal::NotOpen);
    }
    if !b.taken {
        return Err(Refusal::NoSnapshot);
    }
    let snapshot = Snapshot {
        sandbox: sandbox as u8,
        share: b.share,
        areas: b.snapshot,
    };
    put_fitting(out, snapshot, image, pool, table)
}
