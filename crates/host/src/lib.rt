// What a host may rely on over lent words, beside each call's own contract: what calls made one after the other leave, what a tick in one
// call equals, what unused words do, and where each word stands. specs/ says it and proofs/ proves it; there is no code here to call.
#![tactic(auto)]
