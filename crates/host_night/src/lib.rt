// Demand 3 of the words that a host lends: what they are after any journaled calls of include/bellmantle.h. specs/Night.antt says it of
// calls made one after the other, each as its contract says, and proofs/Night.antt proves it; there is no code here to call.
#![tactic(auto)]
