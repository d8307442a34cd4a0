// The limits of each call's parameters, as code.
// It promises: `within_limits` is the test of `interface`'s table of limits (specs/Limits), for any request and any image.
// It stands on `interface`, whose definitions it computes.
#![tactic(auto)]

ghost use Rattle.std.specs.Prelude.{◌≡◌, ◌+◌, ltb};
ghost use Rattle.interface.specs.Numbers.{page_count, address_count, byte_values};
ghost use Rattle.interface.specs.Limits.{between, rights_ok, pages_ok, place_ok, backing_ok};
ghost use Rattle.interface.specs.Limits.{uses_three, uses_two, uses_one, uses_none, within};

use interface::{Attributes, PageNo, Request};

// Whether every parameter of the request is within its limits; `images` is the number of the image's pages.
#[tactic(auto, unfolding(interface::specs::Limits::within))]
pub fn within_limits(q: Request, images: u8) -> bool
    ensures { result ≡ within images q }
{
    match q.code {
        Request::OPEN => is_between(1, Request::MOST_SHARE, q.p1) & uses_one(q),
        Request::MAP => place_ok(q.p1, q.p2) & (backing_ok(q, images) & rights_ok(q.p5)),
        Request::UNMAP => pages_ok(q.p1, q.p2) & uses_two(q),
        Request::PROTECT => pages_ok(q.p1, q.p2) & (rights_ok(q.p3) & uses_three(q)),
        Request::READ => is_address(q.p1) & uses_one(q),
        Request::WRITE => is_address(q.p1) & (is_byte(q.p2) & uses_two(q)),
        _ => uses_none(q),
    }
}

fn is_between(low: u16, high: u16, n: u16) -> bool
    ensures { result ≡ between low high n }
{
    (low <= n) & (n <= high)
}

// "so addresses 0 to 16,383"
fn is_address(n: u16) -> bool
    ensures { result ≡ ltb n address_count }
{
    usize::from(n) < PageNo::ADDRESSES
}

// A byte is 0 to 255.
fn is_byte(n: u16) -> bool
    ensures { result ≡ ltb n byte_values }
{
    n < Request::BYTE_VALUES
}

// "p2 pages, 1 to 64"
fn is_count(n: u16) -> bool
    ensures { result ≡ between 1 page_count n }
{
    (1 <= n) & (usize::from(n) <= PageNo::COUNT)
}

// "rights, 1 for read", "or 3 for read and write"
pub fn rights_ok(rights: u16) -> bool
    ensures { result ≡ rights_ok rights }
{
    (rights == u16::from(Attributes::READ)) | (rights == u16::from(Attributes::READ_WRITE))
}

fn pages_ok(first: u16, n: u16) -> bool
    ensures { result ≡ pages_ok first n }
{
    let end = usize::from(first) + usize::from(n);
    (usize::from(first) < PageNo::COUNT) & (is_count(n) & (end <= PageNo::COUNT))
}

fn place_ok(first: u16, n: u16) -> bool
    ensures { result ≡ place_ok first n }
{
    ((first == Request::ANY_PAGE) & is_count(n)) | pages_ok(first, n)
}

fn backing_ok(q: Request, images: u8) -> bool
    ensures { result ≡ backing_ok images q }
{
    if q.p3 == Request::ANONYMOUS {
        return q.p4 == 0;
    }
    let end = u32::from(q.p4) + u32::from(q.p2);
    (q.p3 == Request::IMAGE) & (end <= u32::from(images))
}

fn uses_three(q: Request) -> bool
    ensures { result ≡ uses_three q }
{
    (q.p4 == 0) & (q.p5 == 0)
}

fn uses_two(q: Request) -> bool
    ensures { result ≡ uses_two q }
{
    (q.p3 == 0) & ((q.p4 == 0) & (q.p5 == 0))
}

fn uses_one(q: Request) -> bool
    ensures { result ≡ uses_one q }
{
    (q.p2 == 0) & ((q.p3 == 0) & ((q.p4 == 0) & (q.p5 == 0)))
}

fn uses_none(q: Request) -> bool
    ensures { result ≡ uses_none q }
{
    (q.p1 == 0) & ((q.p2 == 0) & ((q.p3 == 0) & ((q.p4 == 0) & (q.p5 == 0))))
}
