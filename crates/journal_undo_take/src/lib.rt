// The undoing of a take, in place, from its record in the journal. Nothing has tested the records of a journal before.
#![tactic(auto)]

ghost use Rattle.std.specs.Prelude.{◌≡◌, true, ◌+◌, ◌-◌, ◌*◌, ◌≤◌, length, IfSome};
ghost use Rattle.nights.specs.Record.{recs, record_size};
ghost use Rattle.nights.specs.Net.{capacity};
ghost use Rattle.nights.specs.Journal.{undo_as, checked};
ghost use Rattle.network_queue.specs.Places.{inserted_all};
ghost use Rattle.network_form.specs.Forms.{plain_in, formed_in};
ghost use Rattle.journal_tests.specs.Undone.{undone_in};

use journal_ledger::TAKE_WORDS;
use journal_tests::Undone;
use network_form::Head;
use network_queue::{CAPACITY, RECORD_SIZE, WORDS};

// The t records that a journal has from b on, each put into its place, the first among the first n.
#[tactic(auto, using(crate::proofs::PuttingBack::start, crate::proofs::PuttingBack::put_one, crate::proofs::PuttingBack::all_put))]
fn put_back(w: &mut [u64; WORDS], n: usize, journal: &[u64], b: usize, t: usize)
    requires { (n + t ≤ capacity) × (b + record_size * t ≤ length journal.now) }
    ensures { w.new ≡ inserted_all w.old n (recs journal.now b t) }
{
    for i in 0..t {
        network_queue::insert_in(
            w,
            n + i,
            network_queue::record_at(journal, b + i * RECORD_SIZE),
        );
    }
}

// The network before the take whose record stands from `start` up to `end`. What is put back was delivered, so that the counters stay even,
// and zeros stay behind: the records alone are tested.
#[tactic(auto, using(journal_tests::proofs::Telling::misfit_told, network_form::proofs::Maps::small, crate::proofs::Takes::held_count, crate::proofs::Takes::take_size, crate::proofs::Takes::few_delivered, crate::proofs::Takes::too_many))]
pub fn undo(
    w: &mut [u64; WORDS],
    head: Head,
    journal: &[u64],
    start: usize,
    end: usize,
) -> Option<Undone>
    requires { (formed_in head w.old ≡ true) × (2 ≤ start) × (start ≤ end) × (end ≤ length journal.now) }
    ensures undone { undone_in result w.new
        ≡ checked (undo_as 2 (end - start) start (plain_in head w.old) journal.now end) }
    ensures formed { IfSome result (λ u. formed_in u.head w.new ≡ true) }
{
    let size = end - start;
    if size < TAKE_WORDS {
        return None;
    }
    let t = (size - TAKE_WORDS) / RECORD_SIZE;
    if t * RECORD_SIZE + TAKE_WORDS != size {
        return None;
    }
    let pending = head.pending + t;
    if head.delivered < t as u64 || CAPACITY < pending {
        return None;
    }
    put_back(w, head.pending, journal, start, t);
    let before = Head {
        pending,
        delivered: head.delivered - t as u64,
        ..head
    };
    let fits = network_records::records_rise(w, pending, head.seq);
    fits.then_some(Undone {
        head: before,
        start,
    })
}
