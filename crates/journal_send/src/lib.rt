// A journaled send: the plain send, with a record of the numbers before it behind the journal's others. Any words may be lent.
#![tactic(auto)]

ghost use Rattle.std.specs.Prelude.{◌≡◌};
ghost use Rattle.nights.specs.Draws.{decided};
ghost use Rattle.network_send.specs.Sends.{sent_of, sending};
ghost use Rattle.network.specs.Forms.{plain_of};
ghost use Rattle.journal_calls.specs.Calls.{sends_letter, answer_of, words_after, network_after};

use calls::After;
use journal_ledger::{SEND_WORDS, Sort};
use network::Network;
use network_options::Refusal;
use network_send::{Accepted, Letter};

// A send.
pub fn send(
    network: Network,
    letter: Letter,
    draws: &[u64],
    extras: &[u64],
    journal: &mut [u64],
) -> After<Network, Result<Accepted, Refusal>>
    ensures network { result.state
        ≡ network_after (sends_letter letter draws.now extras.now) network journal.old }
    ensures answer { sent_of result.answer
        ≡ sending (answer_of (sends_letter letter draws.now extras.now) network journal.old)
        (decided (plain_of network).options letter.now letter.kind draws.now extras.now) }
    ensures journal { journal.new
        ≡ words_after (sends_letter letter draws.now extras.now) network journal.old }
{
    let sent = network.send(letter, draws, extras);
    let Ok(_) = sent.answer else {
        return sent;
    };
    if let Err(refusal) = journal_ledger::room_for(journal, SEND_WORDS) {
        return After {
            state: network,
            answer: Err(refusal),
        };
    }
    let record = [
        network.head.seq,
        network.head.lost,
        network.head.replayed,
        network.head.delayed,
        Sort::Send.number(),
        SEND_WORDS as u64,
    ];
    journal_ledger::append(journal, &record);
    sent
}
