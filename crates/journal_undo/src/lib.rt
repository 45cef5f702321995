// The undoing of calls from the journal's records alone, the last one first, in place: each record that fits leaves the network from
// before its call. The words of a journal may be forged: a record that does not fit, or that would leave an ill-formed network, is
// told as such, and no sum of the walk wraps. The network is well formed before each record, so that only what its sort can break is tested
// after it (journal_tests).
#![tactic(auto)]

ghost use Rattle.std.specs.Prelude.{◌≡◌, true, ◌≤◌, length, IfSome};
ghost use Rattle.nights.specs.Journal.{undo_one, checked, undo_all};
ghost use Rattle.network_form.specs.Forms.{plain_in, formed_in};
ghost use Rattle.journal_tests.specs.Undone.{undone_in};

use journal_ledger::{HEADER, Sort};
use journal_tests::Undone;
use network_form::Head;
use network_queue::WORDS;

// The network before the call whose record ends at `end`.
#[tactic(auto, using(journal_tests::proofs::Telling::misfit_told, crate::proofs::Telling::no_room, crate::proofs::Telling::no_sort, crate::proofs::Telling::by_sort))]
fn undo_one(w: &mut [u64; WORDS], head: Head, journal: &[u64], end: usize) -> Option<Undone>
    requires { (formed_in head w.old ≡ true) × (2 ≤ end) × (end ≤ length journal.now) }
    ensures undone { undone_in result w.new ≡ checked (undo_one (plain_in head w.old) journal.now end) }
    ensures formed { IfSome result (λ u. formed_in u.head w.new ≡ true) }
{
    let size = journal[end - 1];
    if ((end - HEADER) as u64) < size {
        return None;
    }
    let start = end - size as usize;
    match Sort::of(journal[end - 2])? {
        Sort::Send => journal_undo_send::undo(w, head, journal, start, end),
        Sort::Take => journal_undo_take::undo(w, head, journal, start, end),
        Sort::Options => journal_undo_options::undo(head, journal, start, end),
    }
}

// The network before the last k calls, whose records end at `end`.
#[tactic(auto, using(crate::proofs::Undoing::stops, crate::proofs::Undoing::goes_on, crate::proofs::Undoing::ends))]
pub fn undo_all(
    w: &mut [u64; WORDS],
    head: Head,
    k: u64,
    journal: &[u64],
    end: usize,
) -> Option<Undone>
    requires { (formed_in head w.old ≡ true) × (2 ≤ end) × (end ≤ length journal.now) }
    ensures undone { undone_in result w.new ≡ undo_all k (plain_in head w.old) journal.now end }
    ensures formed { IfSome result (λ u. formed_in u.head w.new ≡ true) }
{
    let mut undone = Undone { head, start: end };
    for _ in 0..k {
        undone = undo_one(w, undone.head, journal, undone.start)?;
    }
    Some(undone)
}
