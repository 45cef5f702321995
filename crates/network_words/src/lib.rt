// The network over lent words, in place. A call answers 0, or the number of its refusal; then no lent word is changed, those lent for
// the answer included.
//
// A network is two rows of words. Its head is 12: the bits of the loss and of the replay probability, minimum, mean, whether client
// messages are faulted (0 or 1), pending, seq, sent, delivered, lost, replayed, delayed. Its records are 1,024: eight words for each
// pending message, in the order of delivery, and zeros behind them.
#![tactic(auto)]

ghost use Rattle.std.specs.Prelude.{◌≡◌};
ghost use Rattle.network_options.specs.Answers.{settled_of};
ghost use Rattle.network_send.specs.Sends.{plain_letter};
ghost use Rattle.network_layout.specs.Layout.{options_of, answer_code};
ghost use Rattle.network_words.specs.Calls.{new_rows, option_rows, send_rows, take_rows, count_rows, list_rows};

use network_form::Head;
use network_layout::{HEAD_WORDS, OptionWords, answer_number};
use network_options::Refusal;
use network_queue::WORDS;
use network_send::Letter;

// ---- The calls, each answering with its refusal

fn new_in(
    head: &mut [u64; HEAD_WORDS],
    records: &mut [u64; WORDS],
    options: OptionWords,
) -> Result<(), Refusal>
    ensures answer { answer_code (settled_of result) ≡ (new_rows head.old records.old (options_of options)).number }
    ensures head { head.new ≡ (new_rows head.old records.old (options_of options)).head }
    ensures records { records.new ≡ (new_rows head.old records.old (options_of options)).records }
{
    let options = options.options()?;
    network_layout::store(Head::empty(options), head);
    *records = [0; WORDS];
    Ok(())
}

fn set_options_in(
    head: &mut [u64; HEAD_WORDS],
    records: &[u64; WORDS],
    options: OptionWords,
) -> Result<(), Refusal>
    ensures answer { answer_code (settled_of result) ≡ (option_rows head.old records.now (options_of options)).number }
    ensures head { head.new ≡ (option_rows head.old records.now (options_of options)).head }
{
    let Some(old) = network_layout::load(head) else {
        return Err(Refusal::IllFormed);
    };
    if !network_form::formed(records, old) {
        return Err(Refusal::IllFormed);
    }
    let options = options.options()?;
    network_layout::store(Head { options, ..old }, head);
    Ok(())
}

fn send_in(
    head: &mut [u64; HEAD_WORDS],
    records: &mut [u64; WORDS],
    letter: Letter,
    draws: &[u64],
    extras: &[u64],
    told: &mut [u64; 4],
) -> Result<(), Refusal>
    ensures answer { answer_code (settled_of result) ≡ (send_rows head.old records.old (plain_letter letter) draws.now extras.now told.old).number }
    ensures head { head.new ≡ (send_rows head.old records.old (plain_letter letter) draws.now extras.now told.old).head }
    ensures records { records.new ≡ (send_rows head.old records.old (plain_letter letter) draws.now extras.now told.old).records }
    ensures told { told.new ≡ (send_rows head.old records.old (plain_letter letter) draws.now extras.now told.old).told }
{
    let Some(old) = network_layout::load(head) else {
        return Err(Refusal::IllFormed);
    };
    let sent = network_send::send_in(records, old, letter, draws, extras);
    let accepted = sent.answer?;
    network_layout::store(sent.state, head);
    *told = [
        u64::from(accepted.lost),
        u64::from(accepted.replayed),
        accepted.draws as u64,
        accepted.extras as u64,
    ];
    Ok(())
}

fn take_in(
    head: &mut [u64; HEAD_WORDS],
    records: &mut [u64; WORDS],
    tick: u64,
    out: &mut [u64],
    told: &mut [u64; 1],
) -> Result<(), Refusal>
    ensures answer { answer_code (settled_of result) ≡ (take_rows head.old records.old tick out.old told.old).number }
    ensures head { head.new ≡ (take_rows head.old records.old tick out.old told.old).head }
    ensures records { records.new ≡ (take_rows head.old records.old tick out.old told.old).records }
    ensures out { out.new ≡ (take_rows head.old records.old tick out.old told.old).out }
    ensures told { told.new ≡ (take_rows head.old records.old tick out.old told.old).told }
{
    let Some(old) = network_layout::load(head) else {
        return Err(Refusal::IllFormed);
    };
    let taken = network_take::take_in(records, old, tick, out);
    let count = taken.answer?;
    network_layout::store(taken.state, head);
    *told = [count as u64];
    Ok(())
}

fn list_in(
    head: &[u64; HEAD_WORDS],
    records: &[u64; WORDS],
    out: &mut [u64],
    told: &mut [u64; 1],
) -> Result<(), Refusal>
    ensures answer { answer_code (settled_of result) ≡ (list_rows head.now records.now out.old told.old).number }
    ensures out { out.new ≡ (list_rows head.now records.now out.old told.old).out }
    ensures told { told.new ≡ (list_rows head.now records.now out.old told.old).told }
{
    let Some(held) = network_layout::load(head) else {
        return Err(Refusal::IllFormed);
    };
    let count = network_take::list_in(records, held, out)?;
    *told = [count as u64];
    Ok(())
}

fn count_in(
    head: &[u64; HEAD_WORDS],
    records: &[u64; WORDS],
    told: &mut [u64; 1],
) -> Result<(), Refusal>
    ensures answer { answer_code (settled_of result) ≡ (count_rows head.now records.now told.old).number }
    ensures told { told.new ≡ (count_rows head.now records.now told.old).told }
{
    let Some(held) = network_layout::load(head) else {
        return Err(Refusal::IllFormed);
    };
    let count = network_take::count_in(records, held)?;
    *told = [count as u64];
    Ok(())
}

// ---- The same, answering with a number

// A fresh network of these options.
// Kept: the C interface tells a refusal by its number, here and in each call below.
pub fn new(head: &mut [u64; HEAD_WORDS], records: &mut [u64; WORDS], options: OptionWords) -> u64
    ensures answer { result ≡ (new_rows head.old records.old (options_of options)).number }
    ensures head { head.new ≡ (new_rows head.old records.old (options_of options)).head }
    ensures records { records.new ≡ (new_rows head.old records.old (options_of options)).records }
{
    answer_number(new_in(head, records, options))
}

// Replaces the options.
pub fn set_options(
    head: &mut [u64; HEAD_WORDS],
    records: &[u64; WORDS],
    options: OptionWords,
) -> u64
    ensures answer { result ≡ (option_rows head.old records.now (options_of options)).number }
    ensures head { head.new ≡ (option_rows head.old records.now (options_of options)).head }
{
    answer_number(set_options_in(head, records, options))
}

// Accepts a message: whether it was lost, whether it was replayed, and the draws and extras used are told.
pub fn send(
    head: &mut [u64; HEAD_WORDS],
    records: &mut [u64; WORDS],
    letter: Letter,
    draws: &[u64],
    extras: &[u64],
    told: &mut [u64; 4],
) -> u64
    ensures answer { result ≡ (send_rows head.old records.old (plain_letter letter)
        draws.now extras.now told.old).number }
    ensures head { head.new ≡ (send_rows head.old records.old (plain_letter letter)
        draws.now extras.now told.old).head }
    ensures records { records.new ≡ (send_rows head.old records.old (plain_letter letter)
        draws.now extras.now told.old).records }
    ensures told { told.new ≡ (send_rows head.old records.old (plain_letter letter)
        draws.now extras.now told.old).told }
{
    answer_number(send_in(head, records, letter, draws, extras, told))
}

// Takes every message due at a tick to the front of the lent output: how many they are is told.
pub fn take_due(
    head: &mut [u64; HEAD_WORDS],
    records: &mut [u64; WORDS],
    tick: u64,
    out: &mut [u64],
    told: &mut [u64; 1],
) -> u64
    ensures answer { result ≡ (take_rows head.old records.old tick out.old told.old).number }
    ensures head { head.new ≡ (take_rows head.old records.old tick out.old told.old).head }
    ensures records { records.new ≡ (take_rows head.old records.old tick out.old told.old).records }
    ensures out { out.new ≡ (take_rows head.old records.old tick out.old told.old).out }
    ensures told { told.new ≡ (take_rows head.old records.old tick out.old told.old).told }
{
    answer_number(take_in(head, records, tick, out, told))
}

// The messages in flight, in delivery order, at the front of the lent output: how many they are is told.
pub fn in_flight(
    head: &[u64; HEAD_WORDS],
    records: &[u64; WORDS],
    out: &mut [u64],
    told: &mut [u64; 1],
) -> u64
    ensures answer { result ≡ (list_rows head.now records.now out.old told.old).number }
    ensures out { out.new ≡ (list_rows head.now records.now out.old told.old).out }
    ensures told { told.new ≡ (list_rows head.now records.now out.old told.old).told }
{
    answer_number(list_in(head, records, out, told))
}

// How many messages are in flight is told.
pub fn pending(head: &[u64; HEAD_WORDS], records: &[u64; WORDS], told: &mut [u64; 1]) -> u64
    ensures answer { result ≡ (count_rows head.now records.now told.old).number }
    ensures told { told.new ≡ (count_rows head.now records.now told.old).told }
{
    answer_number(count_in(head, records, told))
}
