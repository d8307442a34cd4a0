// "a protect for each area with rights 1, in page order"
ghost use Rattle.std.specs.Prelude.{◌≡◌};
ghost use Rattle.printing.specs.Put.{placed, put, Room};
ghost use Rattle.segments.specs.ByAreas.{protects_of};

use crate::Snapshot;
use crate::by_area::{Segment, put_areas};
use printing::Cursor;

// The protects of a snapshot.
pub fn put_protects(snapshot: Snapshot, out: &mut [u8], to: Cursor) -> Cursor
    requires { Room to out.old (protects_of snapshot) }
    ensures { placed result out.new ≡ put to out.old (protects_of snapshot) }
{
    put_areas(Segment::Protects, snapshot, out, to)
}
