// The value of an accepted request, computed without a change; a rewind's is told by what it does (`rewinding`).
// It promises: the value is the one stated in memory/specs/Memory (`value_at`). Nothing is changed.
// It stands on `memory` for the definition and its laws, on `content` for what is read and compared, and on `area_counts` and `table_marks` for the
// pages and frames that are counted.
#![tactic(auto)]

ghost use Rattle.std.specs.Prelude.{◌≡◌, ◌≤◌, ◌<◌, length};
ghost use Rattle.interface.specs.Numbers.{page_bytes, sandbox_count, most_frames, pages_in};
ghost use Rattle.interface.specs.Requests.{rewind_code};
ghost use Rattle.frames.specs.declared.Held.{Held as Words};
ghost use Rattle.table.specs.Store.{kept, Ranged};
ghost use Rattle.rules.specs.Ready.{Fit, Ready};
ghost use Rattle.memory.specs.Memory.{value_at};

use area_counts::mapped_pages;
use content::read;
use difference::lowest_difference;
use interface::Request;
use pages::Page;
use rules::first_of;
use state::sandbox::Sandbox;

// map: "Value: first page"; read: "Value: the byte"; snapshot: "Value: pages committed"; report: "Value: frames held, fronts plus backs", and kept
// frames "count in call 9"; call 10: "the lowest page number at which the sandbox and its snapshot differ".
pub fn value_of(pool: &[u8], table: &[u16], image: &[u8], b: Sandbox, q: Request) -> u32
    requires sandbox_bound { q.sandbox < sandbox_count }
    requires fit { Fit q }
    requires ready { Ready (pages_in (length image.now)) b.rec }
    requires ranged { Ranged page_bytes pool.now table.now }
    requires pool_bound { pages_in (length pool.now) ≤ most_frames }
    requires fact { q.code ≡ rewind_code → ⊥ }
    ensures { (h : Words) → let before = kept h pool.now table.now in
        result ≡ value_at image.now q b before }
{
    let present = b.rec.present;
    match q.code {
        Request::MAP => u32::from(first_of(present, q)),
        Request::READ => u32::from(read(pool, table, image, b.rec, q)),
        Request::SNAPSHOT => u32::from(mapped_pages(present)),
        Request::REPORT => {
            let frames = (pool.len() / Page::SIZE) as u8;
            u32::from(table_marks::frames_held(table, q.sandbox as u8, frames))
                + u32::from(b.runs.kept())
        }
        Request::COMPARE => u32::from(lowest_difference(
            pool,
            table,
            image,
            b.rec,
            q.sandbox as u8,
        )),
        _ => 0,
    }
}
