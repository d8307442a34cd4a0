// An area in bytes.
ghost use Rattle.std.specs.Prelude.{◌≡◌, length};
ghost use Rattle.layout.specs.Layout.{area_size, area_bytes, backing_from, area_from, is_area};
ghost use Rattle.layout.proofs.LengthLaws.{length-area};

use crate::bytes::{Canonical, Form};
use crate::word::flag;
use areas::area::Area;
use interface::{Backing, ImagePageNo, PageNo, Request};
use layout::size::{AreaAt, Size};
use slots::{kind_of, start_of};

// The kind of an image's backing, in a byte.
const IMAGE: u8 = Request::IMAGE as u8;

fn backing_from(kind: u8, page: u8) -> Backing
    ensures { result ≡ backing_from kind page }
{
    match kind {
        IMAGE => Backing::Image(ImagePageNo(page)),
        _ => Backing::Anonymous,
    }
}

// The form of an area.
#[derive(Clone, Copy, Debug, PartialEq, Eq)]
pub struct AreaForm;

impl Form for AreaForm {
    type Value = Area;

    ghost SIZE = { area_size };

    ghost encode = { area_bytes };

    ghost decode = { area_from };

    const SIZE: usize = Size::AREA;

    fn encode(area: Area, out: &mut [u8]) {
        encode_area(area, out);
    }

    fn decode(bytes: &[u8]) -> Area {
        decode_area(bytes)
    }

    ghost sized = { length-area };
}

impl Canonical for AreaForm {
    ghost is_canonical = { is_area };

    fn is_canonical(bytes: &[u8]) -> bool {
        is_area(bytes)
    }
}

pub fn encode_area(area: Area, out: &mut [u8])
    requires { length out.old ≡ area_size }
    ensures { out.new ≡ area_bytes area }
{
    out[AreaAt::FIRST] = area.first.0;
    out[AreaAt::PAGES] = area.pages;
    out[AreaAt::RIGHTS] = area.rights;
    out[AreaAt::MARK] = flag(area.committed);
    out[AreaAt::KIND] = kind_of(area.backing);
    out[AreaAt::IMAGE_PAGE] = start_of(area.backing);
}

pub fn decode_area(bytes: &[u8]) -> Area
    requires { length bytes.now ≡ area_size }
    ensures { result ≡ area_from bytes.now }
{
    Area {
        first: PageNo(bytes[AreaAt::FIRST]),
        pages: bytes[AreaAt::PAGES],
        rights: bytes[AreaAt::RIGHTS],
        committed: bytes[AreaAt::MARK] == 1,
        backing: backing_from(bytes[AreaAt::KIND], bytes[AreaAt::IMAGE_PAGE]),
    }
}

pub fn is_area(bytes: &[u8]) -> bool
    requires { length bytes.now ≡ area_size }
    ensures { result ≡ is_area bytes.now }
{
    let kind = bytes[AreaAt::KIND];
    let canonical = (kind == IMAGE) | (bytes[AreaAt::IMAGE_PAGE] == 0);
    (bytes[AreaAt::MARK] <= 1) & ((kind <= IMAGE) & canonical)
}
