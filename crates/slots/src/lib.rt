// What stands at a page, as code: questions about a slot and its backing, and what a change makes of them.
// It promises: each function computes the definition of `interface` that it is named after.
// It stands on `interface`, whose definitions it computes. (A crate of its own, so that an edit of those definitions is tried without it.)
#![tactic(auto)]

ghost use Rattle.std.specs.Prelude.{◌≡◌, ◌+◌, ◌<◌};
ghost use Rattle.interface.specs.Slots.{is_mapped, is_committed, is_uncommitted, rights_at, backing_at, is_anonymous};
ghost use Rattle.interface.specs.Slots.{with_rights, with_committed, advance, kind_of, start_of, follows};
ghost use Rattle.interface.specs.Outcome.{page_on};
ghost use Rattle.interface.specs.Numbers.{byte_values};

use interface::{Attributes, Backing, ImagePageNo, Request, Slot};

// Whether the page is mapped.
pub fn is_mapped(slot: Slot) -> bool
    ensures { result ≡ is_mapped slot }
{
    matches!(slot, Slot::Mapped(_))
}

// Whether the page is mapped and committed.
pub fn is_committed(slot: Slot) -> bool
    ensures { result ≡ is_committed slot }
{
    matches!(slot, Slot::Mapped(t) if t.committed)
}

// Whether the page is mapped and not committed.
pub fn is_uncommitted(slot: Slot) -> bool
    ensures { result ≡ is_uncommitted slot }
{
    matches!(slot, Slot::Mapped(t) if !t.committed)
}

// The page's rights: 1 for read, 3 for read and write; 0 where it is not mapped.
pub fn rights_at(slot: Slot) -> u8
    ensures { result ≡ rights_at slot }
{
    match slot {
        Slot::Unmapped => 0,
        Slot::Mapped(t) => t.rights,
    }
}

// The page's backing; anonymous where it is not mapped.
pub fn backing_at(slot: Slot) -> Backing
    ensures { result ≡ backing_at slot }
{
    match slot {
        Slot::Unmapped => Backing::Anonymous,
        Slot::Mapped(t) => t.backing,
    }
}

// Whether the backing is anonymous.
pub fn is_anonymous(backing: Backing) -> bool
    ensures { result ≡ is_anonymous backing }
{
    backing == Backing::Anonymous
}

// "p3 backing, 0 anonymous, 1 image"
pub fn kind_of(backing: Backing) -> u8
    ensures { result ≡ kind_of backing }
{
    match backing {
        Backing::Anonymous => Request::ANONYMOUS as u8,
        Backing::Image(_) => Request::IMAGE as u8,
    }
}

// "p4 first image page (0 when anonymous)"
pub fn start_of(backing: Backing) -> u8
    ensures { result ≡ start_of backing }
{
    match backing {
        Backing::Anonymous => 0,
        Backing::Image(first) => first.0,
    }
}

// The slot with other rights, if it is mapped.
pub fn with_rights(slot: Slot, rights: u8) -> Slot
    ensures { result ≡ with_rights rights slot }
{
    match slot {
        Slot::Unmapped => Slot::Unmapped,
        Slot::Mapped(t) => Slot::Mapped(Attributes { rights, ..t }),
    }
}

// The slot committed, if it is mapped.
pub fn with_committed(slot: Slot) -> Slot
    ensures { result ≡ with_committed slot }
{
    match slot {
        Slot::Unmapped => Slot::Unmapped,
        Slot::Mapped(t) => Slot::Mapped(Attributes {
            committed: true,
            ..t
        }),
    }
}

// A page of an area, so many pages after its first.
pub fn page_on(first: Attributes, pages: u8) -> Slot
    requires { start_of first.backing + pages < byte_values }
    ensures { result ≡ page_on first pages }
{
    Slot::Mapped(Attributes {
        backing: advanced(first.backing, pages),
        ..first
    })
}

// Whether the second backing is the first one, so many pages on.
#[tactic(auto, unfolding(interface::specs::Slots::follows))]
pub fn follows(first: Backing, pages: u8, second: Backing) -> bool
    ensures { result ≡ follows first pages second }
{
    match (first, second) {
        (Backing::Anonymous, Backing::Anonymous) => true,
        (Backing::Image(p), Backing::Image(q)) => u32::from(p.0) + u32::from(pages)
            == u32::from(q.0),
        _ => false,
    }
}

// The backing of the page that is so many pages on.
pub fn advanced(backing: Backing, pages: u8) -> Backing
    requires { start_of backing + pages < byte_values }
    ensures { result ≡ advance backing pages }
{
    match backing {
        Backing::Anonymous => Backing::Anonymous,
        Backing::Image(first) => Backing::Image(ImagePageNo(first.0 + pages)),
    }
}
