// A journaled change of the options: the plain change, with a record of the old options behind the journal's others. Any words may be lent.
#![tactic(auto)]

ghost use Rattle.std.specs.Prelude.{◌≡◌};
ghost use Rattle.network_options.specs.Answers.{settled_of};
ghost use Rattle.network_options.specs.Options.{plain_options};
ghost use Rattle.journal_calls.specs.Calls.{chooses, answer_of, words_after, network_after};

use calls::After;
use network::Network;
use network_options::{NetworkOptions, Refusal};

// A change of the options.
pub fn set_options(
    network: Network,
    options: NetworkOptions,
    journal: &mut [u64],
) -> After<Network, Result<(), Refusal>>
    ensures network { result.state ≡ network_after (chooses (plain_options options)) network journal.old }
    ensures answer { settled_of result.answer ≡ answer_of (chooses (plain_options options)) network journal.old }
    ensures journal { journal.new ≡ words_after (chooses (plain_options options)) network journal.old }
{
    let next = network.set_options(options);
    let Ok(()) = next.answer else {
        return next;
    };
    let room = journal_ledger::room_for(journal, journal_ledger::OPTIONS_WORDS);
    let Ok(()) = room else {
        return After {
            state: network,
            answer: room,
        };
    };
    let record = journal_ledger::options_record(network.head.options);
    journal_ledger::append(journal, &record);
    next
}
