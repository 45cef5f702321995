// A mark. The journal of a network's calls stands in words that the host lends: word 0 says how many calls it holds, word 1 how many
// words are used, and behind them stands a record for each call, enough to undo it. A mark forgets them, so that no rewind goes past it.
// Any words may be lent.
#![tactic(auto)]

ghost use Rattle.std.specs.Prelude.{◌≡◌};
ghost use Rattle.network_options.specs.Answers.{settled_of};
ghost use Rattle.journal_calls.specs.Calls.{mark_answer, mark_words};

use journal_ledger::HEADER;
use network_options::Refusal;

// Forgets the calls held, so that none of them can be undone.
#[tactic(auto, using(journal_ledger::proofs::Words::headed, crate::proofs::Marks::mark_short, crate::proofs::Marks::mark_long))]
pub fn mark(journal: &mut [u64]) -> Result<(), Refusal>
    ensures answer { settled_of result ≡ mark_answer journal.old }
    ensures journal { journal.new ≡ mark_words journal.old }
{
    if journal.len() < HEADER {
        return Err(Refusal::NoJournalRoom);
    }
    journal[0] = 0;
    journal[1] = HEADER as u64;
    Ok(())
}
