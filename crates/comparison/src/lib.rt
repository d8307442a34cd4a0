// What a sandbox and its snapshot are compared by: what call 10 compares of a page, and the lowest page that differs; the committed pages whose bytes differ,
// which a rewind counts: definitions and laws, no code.
// It promises: the comparisons by their examples, computed, and what cannot alter them (proofs/CompareLaws).
// It stands on `interface` for what a page is.

#![tactic(auto)]
