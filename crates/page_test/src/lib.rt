// What a sound state asks of the pages of a sandbox, as a test: "committed pages are snapshot pages and agree with them in backing", "fronts stand on mapped
// pages only". Definitions and laws, no code.
// It promises (proofs/PageLaws): the test is true exactly where each page is as a sound state asks. It is computed in `page_soundness`.
// It stands on `areas`, for what stands at a page, and on `table` for the entries.

#![tactic(auto)]
