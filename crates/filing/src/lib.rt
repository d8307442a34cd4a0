// The archive roll of a sandbox, asked for over a state that the caller keeps as bytes beside its pool and table.
// It asks nothing of what is lent: a wrong length, bytes that are no state's and an unsound state are refusal 3. State, pool, table and image are only read,
// and a refusal leaves every byte of the output. It promises (specs/HostArchive) that what a host gets is the plain machine's, and that the roll's calls
// rebuild the snapshot.
// It stands on `archiving` for the roll, on `encoding` for the state in bytes, and on `host_calls` for what a host hands over.
#![tactic(auto)]

ghost use Rattle.std.specs.Prelude.{◌≡◌};
ghost use Rattle.host_calls.specs.Calls.{handed};
ghost use Rattle.filing.specs.Filed.{left, filed};

use archiving::write_archive;
use encoding::{decode, is_state};
use host_calls::Told;
use interface::{Answer, Refusal};

// Writes the archive roll of a sandbox's snapshot into `out`, and answers the number of its lines.
pub fn archive_over(
    out: &mut [u8],
    image: &[u8],
    state: &[u8],
    pool: &[u8],
    table: &[u16],
    sandbox: u16,
) -> Told
    ensures { let before = handed state.now pool.now table.now in
        left result out.new ≡ filed image.now before sandbox out.old }
{
    if !is_state(state) {
        return Told::by(Err(Refusal::Unsound));
    }
    Told::by(write_archive(decode(state), pool, table, image, sandbox, out))
}
