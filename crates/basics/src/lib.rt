// The words that every layer shares: a choice by a test, tests of a range of numbers in turn, counts and sums.
// It promises the laws of these words (proofs/), each said once, over any test and any range.
// It stands on nothing but the library, and has no code of its own.

#![tactic(auto)]
