// Areas in bytes: their count, and the eight places.
ghost use Rattle.std.specs.Prelude.{◌≡◌, length};
ghost use Rattle.layout.specs.Layout.{areas_size, areas_bytes, areas_from, is_areas};

use areas::area::{Area, Areas};
use fields::area::AreaForm;
use fields::bytes::{are_canonical, decode_row, encode_row};
use layout::size::Size;

pub fn encode_areas(areas: Areas, out: &mut [u8])
    requires { length out.old ≡ areas_size }
    ensures { out.new ≡ areas_bytes areas }
{
    encode_row::<AreaForm, { Area::MOST }>(areas.list, &mut out[1..Size::AREAS]);
    out[0] = areas.count;
}

pub fn decode_areas(bytes: &[u8]) -> Areas
    requires { length bytes.now ≡ areas_size }
    ensures { result ≡ areas_from bytes.now }
{
    Areas {
        count: bytes[0],
        list: decode_row::<AreaForm, { Area::MOST }>(&bytes[1..]),
    }
}

pub fn is_areas(bytes: &[u8]) -> bool
    requires { length bytes.now ≡ areas_size }
    ensures { result ≡ is_areas bytes.now }
{
    are_canonical::<AreaForm, { Area::MOST }>(&bytes[1..])
}
