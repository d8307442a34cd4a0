// The plain checkpoint-and-restore machine of document 01, which copies whole address spaces: definitions only, no code.
// It promises (proofs/CaseLaws) the starred cases and the tables of refusals, of call 10, of unmaps over gaps and of kept runs, computed; what is claimed of it
// for every list of calls stands in `plain_claims`.
// It stands on `interface`, whose table of refusals it decides by.

#![tactic(auto)]
