// The demands over whole lists of calls, stated of the machine that runs and proved.
// specs/Demands is the one file a stranger opens first: each statement under its sentence from the order. What the requests for call 10, for unmaps over gaps
// and for kept frames say beyond it is in `consequences`.
// It stands on `simulation`, which keeps the machine and the plain machine together over one call.

#![tactic(auto)]
