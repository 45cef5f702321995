// A send on a network whose records are lent: the tests in their order, the fate that the lent draws and extras decide, and its copies put
// among the records.
#![tactic(auto)]

ghost use Rattle.std.specs.Prelude.{◌≡◌, true, ◌+◌, ◌≤◌, ◌<◌, ◌^◌, ℕ, List, length};
ghost use Rattle.nights.specs.Record.{recs};
ghost use Rattle.nights.specs.Net.{capacity, copy_at, copies, dues, send, every, good_options, good_record, rising};
ghost use Rattle.network_queue.specs.Plain.{plain_record};
ghost use Rattle.network_queue.specs.Places.{inserted_all};
ghost use Rattle.network_options.specs.Options.{plain_options};
ghost use Rattle.network_fates.specs.Answers.{decided_by};
ghost use Rattle.network_form.specs.Forms.{formed_in};
ghost use Rattle.network_form.specs.Calls.{head_after, records_after};
ghost use Rattle.network_send.specs.Sends.{plain_letter, sent_of, send_tells, Decides};

use calls::After;
use network_fates::Decision;
use network_form::Head;
use network_options::Refusal;
use network_queue::{Record, WORDS};

// What a send is told of its message.
#[derive(Clone, Copy)]
pub struct Letter {
    pub now: u64,
    pub sort: u64,
    pub origin: u64,
    pub to: u64,
    pub kind: u64,
    pub handle: u64,
}

// An accepted send: what became of the message, and how many words of each lent list were used, from its front.
#[derive(Clone, Copy)]
pub struct Accepted {
    pub lost: bool,
    pub replayed: bool,
    pub draws: usize,
    pub extras: usize,
}

impl Letter {
    // The copy that is due at a tick, under a number.
    fn copy(self, due: u64, seq: u64) -> Record
        ensures { plain_record result ≡ copy_at (plain_letter self) due seq }
    {
        Record {
            due,
            seq,
            sent_at: self.now,
            sort: self.sort,
            origin: self.origin,
            to: self.to,
            kind: self.kind,
            handle: self.handle,
        }
    }
}

// The copies of a fate put among the first n records, which are in order and numbered up to seq; the copies are numbered from seq + 1,
// the replayed copy before the original.
fn queue_copies(w: &mut [u64; WORDS], n: usize, seq: u64, letter: Letter, decision: Decision)
    requires room { (n + length (dues (decided_by decision).fate) ≤ capacity) × (seq + 2 < 2 ^ 64) }
    requires n_value { (every (good_record seq) (recs w.old 0 n) ≡ true) × (rising (recs w.old 0 n) ≡ true) }
    ensures { w.new ≡ inserted_all w.old n (copies (plain_letter letter) seq (dues (decided_by decision).fate)) }
{
    match decision {
        Decision::Lost { .. } => {}
        Decision::Once { due, .. } => {
            network_place::insert(w, n, letter.copy(due, seq + 1));
        }
        Decision::Twice { copy, original, .. } => {
            network_place::insert(w, n, letter.copy(copy, seq + 1));
            network_place::insert(w, n + 1, letter.copy(original, seq + 2));
        }
    }
}

// The tests of a send on a well-formed network, in their order, and what is decided where it passes them.
#[tactic(auto, using(crate::proofs::Testing::limit_decides))]
fn decide(head: Head, letter: Letter, draws: &[u64], extras: &[u64]) -> Result<Decision, Refusal>
    requires options { good_options (plain_options head.options) ≡ true }
    requires few { head.pending ≤ capacity }
    ensures { (w : List ℕ) → formed_in head w ≡ true → Decides result (plain_letter letter) draws.now extras.now head w }
{
    if network_queue::LAST_KIND < letter.kind || network_queue::LAST_SORT < letter.sort {
        return Err(Refusal::BadKindOrSort);
    }
    if network_form::SENT_LIMIT <= head.sent {
        return Err(Refusal::SentLimit);
    }
    let decision = network_fates::decide(head.options, letter.now, letter.kind, draws, extras)?;
    if network_queue::CAPACITY < head.pending + decision.copies() {
        return Err(Refusal::Full);
    }
    Ok(decision)
}

// A send on a well-formed network.
pub fn send_on(
    w: &mut [u64; WORDS],
    head: Head,
    letter: Letter,
    draws: &[u64],
    extras: &[u64],
) -> After<Head, Result<Accepted, Refusal>>
    requires { formed_in head w.old ≡ true }
    ensures head { result.state ≡ head_after (send (plain_letter letter) draws.now extras.now) head w.old }
    ensures records { w.new ≡ records_after (send (plain_letter letter) draws.now extras.now) head w.old }
    ensures answer { sent_of result.answer ≡ send_tells (plain_letter letter) draws.now extras.now head w.old }
{
    let decision = match decide(head, letter, draws, extras) {
        Ok(decision) => decision,
        Err(refusal) => {
            return After {
                state: head,
                answer: Err(refusal),
            };
        }
    };
    let copies = decision.copies();
    queue_copies(w, head.pending, head.seq, letter, decision);
    let accepted = Accepted {
        lost: decision.lost(),
        replayed: decision.replayed(),
        draws: decision.draws(),
        extras: decision.extras(),
    };
    let state = Head {
        pending: head.pending + copies,
        seq: head.seq + copies as u64,
        sent: head.sent + 1,
        lost: head.lost + u64::from(accepted.lost),
        replayed: head.replayed + u64::from(accepted.replayed),
        delayed: head.delayed + decision.delayed(),
        ..head
    };
    After {
        state,
        answer: Ok(accepted),
    }
}

// A send.
pub fn send_in(
    w: &mut [u64; WORDS],
    head: Head,
    letter: Letter,
    draws: &[u64],
    extras: &[u64],
) -> After<Head, Result<Accepted, Refusal>>
    ensures head { result.state ≡ head_after (send (plain_letter letter) draws.now extras.now) head w.old }
    ensures records { w.new ≡ records_after (send (plain_letter letter) draws.now extras.now) head w.old }
    ensures answer { sent_of result.answer ≡ send_tells (plain_letter letter) draws.now extras.now head w.old }
{
    if network_form::formed(w, head) {
        return send_on(w, head, letter, draws, extras);
    }
    After {
        state: head,
        answer: Err(Refusal::IllFormed),
    }
}
