// The journal's calls, for statements: specs/Calls.antt says each call of the code by the step of the plain form, and
// proofs/Journaled.antt what the journaled calls share. The calls themselves are the crates journal_mark, journal_options, journal_send,
// journal_take and journal_rewind; there is no code here to call.
#![tactic(auto)]
