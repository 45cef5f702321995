// The rules' worked numbers in a single table, over the definitions that the contracts cite. The table is specs/Table.antt, and
// proofs/Table.antt proves it. Beside it proofs/Runs.antt has some more runs, and proofs/Instances.antt applies the journal's theorem
// to two. There is no code here to call.
#![tactic(auto)]
