// Lines that tell of the snapshot's areas, place by place: a segment has at most one for each.
ghost use Rattle.std.specs.Prelude.{◌≡◌};
ghost use Rattle.archive.specs.Archive.{joined};
ghost use Rattle.printing.specs.Put.{placed, put, Room};
ghost use Rattle.segments.specs.ByAreas.{is_told, line_of, map_of, protect_of, lines_at};

use crate::Snapshot;
use areas::area::Area;
use interface::{Attributes, Request};
use printing::{Cursor, put_if};
use slots::{kind_of, start_of};

// Which of the two segments that go by areas. The definitions of specs/ByAreas go by it (`lines_at`), so it is a value and no closure.
#[derive(Clone, Copy, Debug, PartialEq, Eq)]
pub enum Segment {
    Maps,
    Protects,
}

// The lines of a segment; a place without an area has no pages and no rights, and so no line.
pub fn put_areas(segment: Segment, snapshot: Snapshot, out: &mut [u8], to: Cursor) -> Cursor
    requires { Room to out.old (joined (lines_at segment snapshot.sandbox snapshot.areas) 8) }
    ensures { let lines = joined (lines_at segment snapshot.sandbox snapshot.areas) 8 in
        placed result out.new ≡ put to out.old lines }
{
    let mut next = to;
    for &area in snapshot.areas.list.iter() {
        let line = line_of(segment, snapshot.sandbox, area);
        next = put_if(out, next, line, is_told(segment, area));
    }
    next
}

// Whether a segment has a line for an area.
fn is_told(segment: Segment, area: Area) -> bool
    ensures { result ≡ is_told segment area }
{
    match segment {
        Segment::Maps => area.pages != 0,
        Segment::Protects => area.rights == Attributes::READ,
    }
}

// The line of an area.
fn line_of(segment: Segment, sandbox: u8, area: Area) -> Request
    ensures { result ≡ line_of segment sandbox area }
{
    match segment {
        Segment::Maps => map_line(sandbox, area),
        Segment::Protects => protect_line(sandbox, area),
    }
}

// "one map a snapshot area in page order, at named pages with rights 3"
fn map_line(sandbox: u8, area: Area) -> Request
    ensures { result ≡ map_of sandbox area }
{
    Request {
        code: Request::MAP,
        sandbox: u16::from(sandbox),
        p1: u16::from(area.first.0),
        p2: u16::from(area.pages),
        p3: u16::from(kind_of(area.backing)),
        p4: u16::from(start_of(area.backing)),
        p5: u16::from(Attributes::READ_WRITE),
    }
}

// "a protect for each area with rights 1, in page order"
fn protect_line(sandbox: u8, area: Area) -> Request
    ensures { result ≡ protect_of sandbox area }
{
    Request {
        code: Request::PROTECT,
        sandbox: u16::from(sandbox),
        p1: u16::from(area.first.0),
        p2: u16::from(area.pages),
        p3: u16::from(Attributes::READ),
        p4: 0,
        p5: 0,
    }
}
