// A report or a comparison: its value.
ghost use Rattle.std.specs.Prelude.{◌≡◌, true, ◌||◌, ◌<◌};
ghost use Rattle.interface.specs.Answers.{answered};
ghost use Rattle.interface.specs.Numbers.{sandbox_count};
ghost use Rattle.interface.specs.Requests.{◌is◌, report_code, compare_code};
ghost use Rattle.state.specs.World.{World};
ghost use Rattle.step.specs.Step.{Stepped};
ghost use Rattle.in_place.specs.InPlace.{Around, Stands};

use few_rows::unpaged::decide;
use interface::{Answer, PageNo, Request};
use state::sandbox::Sandbox;
use values::value_of;

// A report or a comparison: nothing changes.
pub(crate) fn look(b: Sandbox, pool: &[u8], table: &[u16], image: &[u8], q: Request) -> Answer
    requires is_value { (q is report_code || q is compare_code) ≡ true }
    requires sandbox_bound { q.sandbox < sandbox_count }
    requires stands { Stands image.now q b pool.now table.now }
    ensures { (w : World) → Around image.now q b pool.now table.now w
        → Stepped image.now w q (record { answer = answered result; world = w }) }
{
    let images = (image.len() / PageNo::BYTES) as u8;
    match decide(b.rec, images, q) {
        Err(why) => Err(why),
        Ok(()) => Ok(value_of(pool, table, image, b, q)),
    }
}
