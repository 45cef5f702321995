// A rewind: the network from before the last k calls that the journal holds, from their records alone. Any words may be lent.
#![tactic(auto)]

ghost use Rattle.std.specs.Prelude.{◌≡◌, IfOk};
ghost use Rattle.nights.specs.Journal.{rewind};
ghost use Rattle.network_options.specs.Answers.{settled_of};
ghost use Rattle.network.specs.Forms.{network_of};
ghost use Rattle.journal_calls.specs.Calls.{answer_from, answer_of, words_after, network_after};

use calls::After;
use network::Network;
use network_form::Head;
use network_options::Refusal;
use network_queue::WORDS;

// A rewind in place, and the head that it leaves. Beside a refusal the words are whatever the undoing left, up to the record that did not
// fit: a caller that has to give them back keeps a copy.
pub fn rewind_in(
    w: &mut [u64; WORDS],
    head: Head,
    k: u64,
    journal: &mut [u64],
) -> Result<Head, Refusal>
    ensures network { IfOk result
        (λ h. network_of h w.new ≡ network_after (rewind k) (network_of head w.old) journal.old) }
    ensures answer { answer_from result ≡ answer_of (rewind k) (network_of head w.old) journal.old }
    ensures journal { journal.new ≡ words_after (rewind k) (network_of head w.old) journal.old }
{
    if !network_form::formed(w, head) {
        return Err(Refusal::IllFormed);
    }
    if !journal_ledger::header_good(journal) {
        return Err(Refusal::BadJournal);
    }
    let held = journal[0];
    if held < k {
        return Err(Refusal::TooFarBack);
    }
    let end = journal[1] as usize;
    let Some(undone) = journal_undo::undo_all(w, head, k, journal, end) else {
        return Err(Refusal::BadJournal);
    };
    journal[0] = held - k;
    journal[1] = undone.start as u64;
    Ok(undone.head)
}

// Goes back over the last k calls held. The undoing works on a copy of the records: a refusal hands back the network that came.
pub fn rewind(network: Network, k: u64, journal: &mut [u64]) -> After<Network, Result<(), Refusal>>
    ensures network { result.state ≡ network_after (rewind k) network journal.old }
    ensures answer { settled_of result.answer ≡ answer_of (rewind k) network journal.old }
    ensures journal { journal.new ≡ words_after (rewind k) network journal.old }
{
    let mut words = network.words;
    match rewind_in(&mut words, network.head, k, journal) {
        Ok(head) => After {
            state: Network { head, words },
            answer: Ok(()),
        },
        Err(refusal) => After {
            state: network,
            answer: Err(refusal),
        },
    }
}
