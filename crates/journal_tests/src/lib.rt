// What undoing gives, and what the undoing of a record can break in a well-formed network, by the record's sort: a send's its counters, a
// take's its records, a change of options its options. specs/Parts.antt names those parts of the test 23, and proofs/Laws.antt proves that
// they are all of it.
#![tactic(auto)]

use network_form::Head;

// What undoing gives where each record fits: the head of the network from before, whose words it left, and where in the journal the
// undone records start. Where one does not fit there is none, and the words are whatever the undoing left.
#[derive(Clone, Copy)]
pub struct Undone {
    pub head: Head,
    pub start: usize,
}
