// A part restored: its bytes become those of another of the same length, and whether any of them differed is told.
// It promises: of any length, the part then has the other's bytes, and the word is the definition's (pages/specs/Parts, `differs`), which holds exactly where
// the two were not equal (pages/proofs/SameLaws, `differs-told`).
// It stands on `pages` for parts that are filled and compared. (A crate of its own, so that an edit of those is tried without it.)
#![tactic(auto)]

ghost use Rattle.std.specs.Prelude.{◌≡◌, length};
ghost use Rattle.pages.specs.Parts.{differs};

// The bytes of the part become those of `src`, and whether any of them differed is told, in one pass over the part: a quarter of it is compared at a time, and
// from the first quarter that differs on the bytes are copied. Those before it are the same already.
pub fn restore(part: &mut [u8], src: &[u8]) -> bool
    requires { length part.old ≡ length src.now }
    ensures part_after { part.new ≡ src.now }
    ensures differed { result ≡ differs (length part.old) part.old src.now }
{
    let half = src.len() / 2;
    if restore_half(&mut part[..half], &src[..half]) {
        pages::fill(&mut part[half..], &src[half..]);
        return true;
    }
    restore_half(&mut part[half..], &src[half..])
}

// A half of it, by quarters. (The same cut as in `restore`, written twice: one function for both, or a loop over the pieces, compiles into slower code.)
fn restore_half(part: &mut [u8], src: &[u8]) -> bool
    requires { length part.old ≡ length src.now }
    ensures part_after { part.new ≡ src.now }
    ensures differed { result ≡ differs (length part.old) part.old src.now }
{
    let half = src.len() / 2;
    if restore_quarter(&mut part[..half], &src[..half]) {
        pages::fill(&mut part[half..], &src[half..]);
        return true;
    }
    restore_quarter(&mut part[half..], &src[half..])
}

// A quarter of it: copied only where it differs.
fn restore_quarter(part: &mut [u8], src: &[u8]) -> bool
    requires { length part.old ≡ length src.now }
    ensures part_after { part.new ≡ src.now }
    ensures differed { result ≡ differs (length part.old) part.old src.now }
{
    if pages::is_same(part, src) {
        return false;
    }
    pages::fill(part, src);
    true
}
