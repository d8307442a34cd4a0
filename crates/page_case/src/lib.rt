// The case of a page at a rewind, found.
// It promises: the case is the definition's (rewind_cases/specs/Rewind, `case_of`), and so the only one that the page meets.
// It stands on `rewind_cases` for the cases, and on `interface` for a page's backing. (A crate of its own, so that an edit of the definitions is tried without
// it.)
#![tactic(auto)]

ghost use Rattle.std.specs.Prelude.{◌≡◌};
ghost use Rattle.rewind_cases.specs.Rewind.{case_of};

use interface::{Backing, ImagePageNo};
use rewind_cases::RewindCase;

// The case of a committed page still mapped, by its front entry, its back entry and its backing, found in that order.
pub fn case_of(front: u16, back: u16, backing: Backing) -> RewindCase
    ensures { result ≡ case_of front back backing }
{
    if front == 0 {
        return RewindCase::Shared;
    }
    if back != 0 {
        return RewindCase::Copied;
    }
    match backing {
        Backing::Anonymous => RewindCase::Zeroed,
        Backing::Image(page) => RewindCase::ImagePage(page),
    }
}
