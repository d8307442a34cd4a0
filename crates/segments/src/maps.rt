// "one map a snapshot area in page order, at named pages with rights 3"
ghost use Rattle.std.specs.Prelude.{◌≡◌};
ghost use Rattle.printing.specs.Put.{placed, put, Room};
ghost use Rattle.segments.specs.ByAreas.{maps_of};

use crate::Snapshot;
use crate::by_area::{Segment, put_areas};
use printing::Cursor;

// The maps of a snapshot.
pub fn put_maps(snapshot: Snapshot, out: &mut [u8], to: Cursor) -> Cursor
    requires { Room to out.old (maps_of snapshot) }
    ensures { placed result out.new ≡ put to out.old (maps_of snapshot) }
{
    put_areas(Segment::Maps, snapshot, out, to)
}
