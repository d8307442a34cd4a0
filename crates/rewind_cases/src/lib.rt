// What a rewind makes of a page, as section 3.2.2 of the REWIND paper tells it: the four cases of a committed page still mapped, and what is done in each.
// Definitions and laws, no code but the type of a case.
// It promises: a page meets exactly one case, the one that `case_of` finds (proofs/CaseLaws); and the store after a rewind is the one of the definition without
// cases that there was before, and so is what a front then holds (proofs/BeforeLaws). The case is found in `page_case`, and a page is restored by it in
// `page_restore`.
// It stands on `table` for the store and its laws, and on `interface` for a page's backing.
#![tactic(auto)]

use interface::ImagePageNo;

// The cases in the paper's order. Its "original PTE" is the front entry of the page, its "buddy PTE" the back entry.
#[derive(Clone, Copy, Debug, PartialEq, Eq)]
pub enum RewindCase {
    // "a page shared with the original PTE": not written since the snapshot, so it has no front.
    Shared,
    // "an individual page not shared with the original PTE (i.e., CoW occurred)": it has a front and a back.
    Copied,
    // "the special zeroing flag": an anonymous page first written after the snapshot, so it has a front alone.
    Zeroed,
    // The paper has "a file page in a shared file mapping" here; our machine has none, and the fourth is a page of the image with a front alone.
    ImagePage(ImagePageNo),
}
