// A roll on standard input, played line by line; its replies are not printed. What is read, one line after the other until a short one or the 65,535th, is one
// roll played (`RollPlayed`).
ghost use Rattle.state.specs.World.{world_of};
ghost use Rattle.roll.specs.Known.{Known};
ghost use Rattle.roll.specs.Input.{RollPlayed};

use input::is_whole;
use lines::Line;
use playing::{Player, play};
use state::sandbox::Machine;
use streams::read_full;

// Plays the roll on standard input, line by line; its replies are not printed. "Lines after the 65,535th are not read."
// Whether the state is sound is known, and stays so.
pub fn play_input(
    rt: &HostRuntime,
    machine: Machine,
    sound: bool,
    pool: &mut [u8],
    table: &mut [u16],
    image: &[u8],
) -> Machine
    requires { Known sound image.now (world_of machine pool.old table.old) }
    ensures { let before = world_of machine pool.old table.old in
        RollPlayed image.now before (world_of result pool.new table.new) }
{
    let mut machine = machine;
    for line in 1..=Player::LAST {
        let mut read = [0u8; Line::BYTES];
        let mut reply = [0u8; Line::REPLY];
        let mut input = rt.stdin();
        let got = read_full(&mut input, &mut read);
        let player = Player {
            machine,
            sound,
            line,
        };
        machine = play(player, pool, table, image, &read[..got], &mut reply);
        if !is_whole(got) {
            return machine;
        }
    }
    machine
}
