// The undoing of a send, in place, from its record in the journal.
#![tactic(auto)]

ghost use Rattle.std.specs.Prelude.{◌≡◌, true, ◌-◌, ◌≤◌, length, IfSome};
ghost use Rattle.nights.specs.Journal.{undo_as, checked};
ghost use Rattle.network_form.specs.Forms.{plain_in, formed_in};
ghost use Rattle.journal_tests.specs.Undone.{undone_in};

use journal_tests::Undone;
use network_form::Head;
use network_queue::WORDS;

// The network before the send whose record stands from `start` up to `end`. The records that are left are still in order and within the
// number that comes back: the counters alone are tested.
#[tactic(auto, using(journal_tests::proofs::Telling::misfit_told, network_form::proofs::Maps::small, crate::proofs::Sends::send_size, crate::proofs::Sends::none_sent))]
pub fn undo(
    w: &mut [u64; WORDS],
    head: Head,
    journal: &[u64],
    start: usize,
    end: usize,
) -> Option<Undone>
    requires { (formed_in head w.old ≡ true) × (2 ≤ start) × (start ≤ end) × (end ≤ length journal.now) }
    ensures undone { undone_in result w.new
        ≡ checked (undo_as 1 (end - start) start (plain_in head w.old) journal.now end) }
    ensures formed { IfSome result (λ u. formed_in u.head w.new ≡ true) }
{
    let &[seq, lost, replayed, delayed, _, _] = &journal[start..end] else {
        return None;
    };
    if head.sent == 0 {
        return None;
    }
    let before = Head {
        pending: network_drop::drop_above(w, head.pending, seq),
        seq,
        sent: head.sent - 1,
        lost,
        replayed,
        delayed,
        ..head
    };
    let fits = before.counts_good();
    fits.then_some(Undone {
        head: before,
        start,
    })
}
