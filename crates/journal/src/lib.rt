// Demand 3 of the code: what the network is after any journaled calls. specs/Night.antt says it of calls made one after the other, each
// as its contract says, and proofs/Night.antt proves it; there is no code here to call.
#![tactic(auto)]
