// A journaled take: the plain take, with a record of what was taken behind the journal's others. Any words may be lent.
#![tactic(auto)]

ghost use Rattle.std.specs.Prelude.{◌≡◌, length};
ghost use Rattle.nights.specs.Record.{record_words};
ghost use Rattle.nights.specs.Net.{keep, is_due};
ghost use Rattle.network_take.specs.Takes.{counted_of, counting};
ghost use Rattle.network.specs.Forms.{plain_of};
ghost use Rattle.network_form.specs.Calls.{written};
ghost use Rattle.journal_calls.specs.Calls.{takes, answer_of, words_after, network_after};

use calls::After;
use journal_ledger::{Sort, TAKE_WORDS};
use network::Network;
use network_options::Refusal;
use network_queue::{RECORD_SIZE, WORDS};

// The words of a take's own output, beside which its record's sort and length fit.
const TAKE_ROOM: usize = WORDS + TAKE_WORDS;

// A take. What is due is taken to words of our own first: the lent output and the journal change only once both are known to have
// room.
pub fn take_due(
    network: Network,
    now: u64,
    out: &mut [u64],
    journal: &mut [u64],
) -> After<Network, Result<usize, Refusal>>
    ensures network { result.state ≡ network_after (takes now (length out.old)) network journal.old }
    ensures answer { counted_of result.answer
        ≡ counting (answer_of (takes now (length out.old)) network journal.old)
        (length (keep (is_due now) (plain_of network).pending)) }
    ensures out { out.new
        ≡ written (answer_of (takes now (length out.old)) network journal.old)
        (record_words (keep (is_due now) (plain_of network).pending)) out.old }
    ensures journal { journal.new ≡ words_after (takes now (length out.old)) network journal.old }
{
    let mut record = [0; TAKE_ROOM];
    let taken = network.take_due(now, &mut record[..WORDS]);
    let Ok(count) = taken.answer else {
        return taken;
    };
    let size = count * RECORD_SIZE;
    if out.len() < size {
        return After {
            state: network,
            answer: Err(Refusal::ShortOutput),
        };
    }
    if let Err(refusal) = journal_ledger::room_for(journal, size + TAKE_WORDS) {
        return After {
            state: network,
            answer: Err(refusal),
        };
    }
    journal_ledger::write_at(out, 0, &record[..size]);
    record[size] = Sort::Take.number();
    record[size + 1] = (size + TAKE_WORDS) as u64;
    journal_ledger::append(journal, &record[..size + TAKE_WORDS]);
    taken
}
