// The journal over lent words: a network's head and records as in `network_words`, and the journal's own words. A call answers 0, or
// the number of its refusal; then no lent word is changed, those lent for the answer included. The network is read into a value and
// written back, since a journaled call can still be refused once its network is known; a rewind works in place and keeps what came.
#![tactic(auto)]

ghost use Rattle.std.specs.Prelude.{◌≡◌, true, [], ◌∷◌, length};
ghost use Rattle.nights.specs.Record.{record_words};
ghost use Rattle.nights.specs.Net.{keep, is_due};
ghost use Rattle.nights.specs.Draws.{decided};
ghost use Rattle.nights.specs.Journal.{rewind};
ghost use Rattle.nights.specs.Tests.{if_done};
ghost use Rattle.network_options.specs.Answers.{settled_of};
ghost use Rattle.network.specs.Forms.{plain_of, is_formed};
ghost use Rattle.network_form.specs.Calls.{written};
ghost use Rattle.network_layout.specs.Layout.{head_words, options_of, answer_code};
ghost use Rattle.network_words.specs.Calls.{send_told};
ghost use Rattle.journal_calls.specs.Calls.{sends_letter, takes, chooses, mark_answer, mark_words};
ghost use Rattle.journal_words.specs.Calls.{network_in, journal_answer, journal_head, journal_records, journal_words};

use network::Network;
use network_layout::{HEAD_WORDS, OptionWords, answer_number};
use network_options::Refusal;
use network_queue::WORDS;
use network_send::Letter;

// The words of a well-formed network.
fn write(network: Network, head: &mut [u64; HEAD_WORDS], records: &mut [u64; WORDS])
    requires { is_formed network ≡ true }
    ensures head { head.new ≡ head_words network.head }
    ensures records { records.new ≡ network.words }
{
    network_layout::store(network.head, head);
    let words = network.words;
    *records = words;
}

// ---- The calls, each answering with its refusal

fn send_in(
    head: &mut [u64; HEAD_WORDS],
    records: &mut [u64; WORDS],
    letter: Letter,
    draws: &[u64],
    extras: &[u64],
    journal: &mut [u64],
    told: &mut [u64; 4],
) -> Result<(), Refusal>
    ensures answer { answer_code (settled_of result)
        ≡ answer_code (journal_answer (sends_letter letter draws.now extras.now) head.old records.old journal.old) }
    ensures head { head.new
        ≡ journal_head (sends_letter letter draws.now extras.now) head.old records.old journal.old }
    ensures records { records.new
        ≡ journal_records (sends_letter letter draws.now extras.now) head.old records.old journal.old }
    ensures journal { journal.new
        ≡ journal_words (sends_letter letter draws.now extras.now) head.old records.old journal.old }
    ensures told { told.new
        ≡ if_done (journal_answer (sends_letter letter draws.now extras.now) head.old records.old journal.old)
        (send_told (decided (plain_of (network_in head.old records.old)).options letter.now letter.kind draws.now extras.now)) told.old }
{
    let Some(old) = network_layout::load(head) else {
        return Err(Refusal::IllFormed);
    };
    let network = Network {
        head: old,
        words: *records,
    };
    let sent = journal_send::send(network, letter, draws, extras, journal);
    let accepted = sent.answer?;
    write(sent.state, head, records);
    *told = [
        u64::from(accepted.lost),
        u64::from(accepted.replayed),
        accepted.draws as u64,
        accepted.extras as u64,
    ];
    Ok(())
}

fn take_in(
    head: &mut [u64; HEAD_WORDS],
    records: &mut [u64; WORDS],
    now: u64,
    out: &mut [u64],
    journal: &mut [u64],
    told: &mut [u64; 1],
) -> Result<(), Refusal>
    ensures answer { answer_code (settled_of result)
        ≡ answer_code (journal_answer (takes now (length out.old)) head.old records.old journal.old) }
    ensures head { head.new
        ≡ journal_head (takes now (length out.old)) head.old records.old journal.old }
    ensures records { records.new
        ≡ journal_records (takes now (length out.old)) head.old records.old journal.old }
    ensures out { out.new
        ≡ written (journal_answer (takes now (length out.old)) head.old records.old journal.old)
        (record_words (keep (is_due now) (plain_of (network_in head.old records.old)).pending)) out.old }
    ensures journal { journal.new
        ≡ journal_words (takes now (length out.old)) head.old records.old journal.old }
    ensures told { told.new
        ≡ if_done (journal_answer (takes now (length out.old)) head.old records.old journal.old)
        (length (keep (is_due now) (plain_of (network_in head.old records.old)).pending) ∷ []) told.old }
{
    let Some(old) = network_layout::load(head) else {
        return Err(Refusal::IllFormed);
    };
    let network = Network {
        head: old,
        words: *records,
    };
    let taken = journal_take::take_due(network, now, out, journal);
    let count = taken.answer?;
    write(taken.state, head, records);
    *told = [count as u64];
    Ok(())
}

fn set_options_in(
    head: &mut [u64; HEAD_WORDS],
    records: &[u64; WORDS],
    options: OptionWords,
    journal: &mut [u64],
) -> Result<(), Refusal>
    ensures answer { answer_code (settled_of result)
        ≡ answer_code (journal_answer (chooses (options_of options)) head.old records.now journal.old) }
    ensures head { head.new ≡ journal_head (chooses (options_of options)) head.old records.now journal.old }
    ensures journal { journal.new ≡ journal_words (chooses (options_of options)) head.old records.now journal.old }
{
    let Some(old) = network_layout::load(head) else {
        return Err(Refusal::IllFormed);
    };
    if !network_form::formed(records, old) {
        return Err(Refusal::IllFormed);
    }
    let options = options.options()?;
    let network = Network {
        head: old,
        words: *records,
    };
    let next = journal_options::set_options(network, options, journal);
    next.answer?;
    network_layout::store(next.state.head, head);
    Ok(())
}

fn rewind_in(
    head: &mut [u64; HEAD_WORDS],
    records: &mut [u64; WORDS],
    k: u64,
    journal: &mut [u64],
) -> Result<(), Refusal>
    ensures answer { answer_code (settled_of result)
        ≡ answer_code (journal_answer (rewind k) head.old records.old journal.old) }
    ensures head { head.new ≡ journal_head (rewind k) head.old records.old journal.old }
    ensures records { records.new ≡ journal_records (rewind k) head.old records.old journal.old }
    ensures journal { journal.new ≡ journal_words (rewind k) head.old records.old journal.old }
{
    let Some(old) = network_layout::load(head) else {
        return Err(Refusal::IllFormed);
    };
    let came = *records;
    match journal_rewind::rewind_in(records, old, k, journal) {
        Ok(back) => {
            network_layout::store(back, head);
            Ok(())
        }
        Err(refusal) => {
            *records = came;
            Err(refusal)
        }
    }
}

// ---- The same, answering with a number

// Forgets the calls held.
// Kept: the C interface tells a refusal by its number, here and in each call below.
pub fn mark(journal: &mut [u64]) -> u64
    ensures answer { result ≡ answer_code (mark_answer journal.old) }
    ensures journal { journal.new ≡ mark_words journal.old }
{
    answer_number(journal_mark::mark(journal))
}

// A journaled send.
pub fn send(
    head: &mut [u64; HEAD_WORDS],
    records: &mut [u64; WORDS],
    letter: Letter,
    draws: &[u64],
    extras: &[u64],
    journal: &mut [u64],
    told: &mut [u64; 4],
) -> u64
    ensures answer { result
        ≡ answer_code (journal_answer (sends_letter letter draws.now extras.now) head.old records.old journal.old) }
    ensures head { head.new
        ≡ journal_head (sends_letter letter draws.now extras.now) head.old records.old journal.old }
    ensures records { records.new
        ≡ journal_records (sends_letter letter draws.now extras.now) head.old records.old journal.old }
    ensures journal { journal.new
        ≡ journal_words (sends_letter letter draws.now extras.now) head.old records.old journal.old }
    ensures told { told.new
        ≡ if_done (journal_answer (sends_letter letter draws.now extras.now) head.old records.old journal.old)
        (send_told (decided (plain_of (network_in head.old records.old)).options letter.now letter.kind draws.now extras.now)) told.old }
{
    answer_number(send_in(head, records, letter, draws, extras, journal, told))
}

// A journaled take.
pub fn take_due(
    head: &mut [u64; HEAD_WORDS],
    records: &mut [u64; WORDS],
    now: u64,
    out: &mut [u64],
    journal: &mut [u64],
    told: &mut [u64; 1],
) -> u64
    ensures answer { result ≡ answer_code (journal_answer (takes now (length out.old)) head.old records.old
        journal.old) }
    ensures head { head.new
        ≡ journal_head (takes now (length out.old)) head.old records.old journal.old }
    ensures records { records.new
        ≡ journal_records (takes now (length out.old)) head.old records.old journal.old }
    ensures out { out.new
        ≡ written (journal_answer (takes now (length out.old)) head.old records.old journal.old)
        (record_words (keep (is_due now) (plain_of (network_in head.old records.old)).pending)) out.old }
    ensures journal { journal.new
        ≡ journal_words (takes now (length out.old)) head.old records.old journal.old }
    ensures told { told.new
        ≡ if_done (journal_answer (takes now (length out.old)) head.old records.old journal.old)
        (length (keep (is_due now) (plain_of (network_in head.old records.old)).pending) ∷ []) told.old }
{
    answer_number(take_in(head, records, now, out, journal, told))
}

// A journaled change of the options.
pub fn set_options(
    head: &mut [u64; HEAD_WORDS],
    records: &[u64; WORDS],
    options: OptionWords,
    journal: &mut [u64],
) -> u64
    ensures answer { result ≡ answer_code (journal_answer (chooses (options_of options)) head.old records.now journal.old) }
    ensures head { head.new ≡ journal_head (chooses (options_of options)) head.old records.now journal.old }
    ensures journal { journal.new ≡ journal_words (chooses (options_of options)) head.old records.now journal.old }
{
    answer_number(set_options_in(head, records, options, journal))
}

// Goes back over the last k calls held, in place: what came is kept, and put back on a refusal.
pub fn rewind(
    head: &mut [u64; HEAD_WORDS],
    records: &mut [u64; WORDS],
    k: u64,
    journal: &mut [u64],
) -> u64
    ensures answer { result ≡ answer_code (journal_answer (rewind k) head.old records.old journal.old) }
    ensures head { head.new ≡ journal_head (rewind k) head.old records.old journal.old }
    ensures records { records.new ≡ journal_records (rewind k) head.old records.old journal.old }
    ensures journal { journal.new ≡ journal_words (rewind k) head.old records.old journal.old }
{
    answer_number(rewind_in(head, records, k, journal))
}
