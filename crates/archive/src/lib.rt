// A snapshot as a roll that rebuilds it (request A9): definitions and theorems over the plain machine, no code.
// It promises (specs/Claims) that the roll, played from a fresh state, is accepted line by line and leaves the snapshot as copy and present pages, each segment
// by one law (specs/Segments), and that two snapshots with one roll agree. It says what its text is (specs/Text) and what is answered (specs/Written).
// It stands on `plain` for the machine and on `lines` for the print of a line.

#![tactic(auto)]
