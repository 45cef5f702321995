// What a tick call answers and writes, exactly as the rules say it, and what holds over several calls: specs/ says the places that are
// tested, property 3 by its rule's own words, what a pass writes, and a night; proofs/Exactly, Appending, Words and Distinct prove them, and
// proofs/Fitting says that a tracker fits from its making on. The calls stand in properties_tracker, properties_tick and properties_end;
// there is no code here to call.
#![tactic(auto)]
