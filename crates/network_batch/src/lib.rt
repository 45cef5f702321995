// A tick of the network over lent words: its sends, one after the other, and then a take, with the network tested once. If one of the
// calls is refused the whole is, with that call's number and place, and no lent word is changed; else it is the calls one after the
// other. The records are worked on in place: where a call is refused, the copies that the sends before it queued are dropped again,
// which are those of the newest numbers.
#![tactic(auto)]

ghost use Rattle.std.specs.Prelude.{◌≡◌, true, ◌+◌, ◌*◌, ◌≤◌, length, IfOk, IfErr};
ghost use Rattle.nights.specs.Record.{recs};
ghost use Rattle.nights.specs.Net.{keep};
ghost use Rattle.network_queue.specs.Packed.{packed};
ghost use Rattle.network_drop.specs.Numbered.{up_to};
ghost use Rattle.network_options.specs.Answers.{refusal_number};
ghost use Rattle.network_form.specs.Forms.{formed_in};
ghost use Rattle.network_layout.specs.Layout.{head_in};
ghost use Rattle.network_send.specs.Sends.{plain_letter};
ghost use Rattle.network_batch.specs.Ticks.{message_words, most_messages, letter_at, number_at, sends_from, ticked, batch_ran, queued, ran_of, batch_of, stop_number, Counts};

use calls::After;
use network_form::Head;
use network_layout::HEAD_WORDS;
use network_options::Refusal;
use network_queue::WORDS;
use network_send::Letter;

// The words of a message: the tick it is sent at, the sender's sort and id, the receiver, kind and handle.
pub const MESSAGE: usize = 6;

// The most messages of a tick.
pub const MOST: usize = 65536;

// A refusal's number stands above the low 32 bits, and the call's place in them.
const PLACED: u64 = 0x1_0000_0000;

// The words that the sends of a batch used, from the front of their lists.
#[derive(Clone, Copy)]
struct Used {
    draws: usize,
    extras: usize,
}

// Why a batch is refused, and the place of the call that is. A list that is no whole number of messages, or has too many, is refused as
// a message of a bad kind.
#[derive(Clone, Copy)]
struct Stopped {
    refusal: Refusal,
    place: usize,
}

impl Stopped {
    #[tactic(auto, using(crate::proofs::Using::number_under))]
    fn number(self) -> u64
        requires { self.place ≤ most_messages }
        ensures { result ≡ number_at (refusal_number self.refusal) self.place }
    {
        self.refusal.number() * PLACED + self.place as u64
    }
}

// The message at a place of the list.
fn letter_at(sends: &[u64], place: usize) -> Letter
    requires { place * message_words + message_words ≤ length sends.now }
    ensures { plain_letter result ≡ letter_at sends.now place }
{
    let b = place * MESSAGE;
    Letter {
        now: sends[b],
        sort: sends[b + 1],
        origin: sends[b + 2],
        to: sends[b + 3],
        kind: sends[b + 4],
        handle: sends[b + 5],
    }
}

// The sends, one after the other, up to the first that is refused. Of the records then pending, those numbered as before are the old ones.
fn send_all(
    records: &mut [u64; WORDS],
    head: Head,
    sends: &[u64],
    count: usize,
    draws: &[u64],
    extras: &[u64],
) -> After<Head, Result<Used, Stopped>>
    requires { (formed_in head records.old ≡ true) × (message_words * count ≤ length sends.now) }
    ensures ran { ran_of result.answer result.state records.new
        ≡ sends_from sends.now draws.now extras.now count 0 0 0 head records.old }
    ensures whole { formed_in result.state records.new ≡ true }
    ensures within { IfErr result.answer (λ s. s.place ≤ count) }
    ensures older { keep (up_to head.seq) (recs records.new 0 result.state.pending)
        ≡ recs records.old 0 head.pending }
{
    let mut me = head;
    let mut drawn = 0;
    let mut added = 0;
    for place in 0..count {
        let letter = letter_at(sends, place);
        let sent = network_send::send_on(records, me, letter, &draws[drawn..], &extras[added..]);
        me = sent.state;
        match sent.answer {
            Err(refusal) => {
                return After {
                    state: me,
                    answer: Err(Stopped { refusal, place }),
                };
            }
            Ok(accepted) => {
                drawn += accepted.draws;
                added += accepted.extras;
            }
        }
    }
    After {
        state: me,
        answer: Ok(Used {
            draws: drawn,
            extras: added,
        }),
    }
}

// The records without those numbered above `last`, the number of a network before its sends.
fn take_back(records: &mut [u64; WORDS], after: Head, last: u64)
    requires { formed_in after records.old ≡ true }
    ensures { records.new ≡ packed (keep (up_to last) (recs records.old 0 after.pending)) }
{
    network_drop::drop_above(records, after.pending, last);
}

// How many messages the list has, if it has no more than the most and they are whole ones.
#[tactic(auto, unfolding(crate::specs::Ticks::sends_tested))]
fn count_of(sends: &[u64]) -> Result<usize, Stopped>
    ensures { Counts result sends.now }
{
    let count = sends.len() / MESSAGE;
    if MOST < count {
        return Err(Stopped {
            refusal: Refusal::BadKindOrSort,
            place: MOST,
        });
    }
    if count * MESSAGE != sends.len() {
        return Err(Stopped {
            refusal: Refusal::BadKindOrSort,
            place: count,
        });
    }
    Ok(count)
}

// The tests of the network and of the list, and the sends. Where one is refused the records are as they came; and else they are so again
// without those of the newest numbers.
fn run_sends(
    head: &[u64; HEAD_WORDS],
    records: &mut [u64; WORDS],
    sends: &[u64],
    draws: &[u64],
    extras: &[u64],
) -> Result<After<Head, Used>, Stopped>
    ensures ran { batch_of result records.new
        ≡ batch_ran head.now records.old sends.now draws.now extras.now }
    ensures kept { IfErr result (λ s. (records.new ≡ records.old) × (s.place ≤ most_messages)) }
    ensures sent { IfOk result (λ t. (formed_in t.state records.new ≡ true)
        × (packed (keep (up_to (head_in head.now).seq) (recs records.new 0 t.state.pending)) ≡ records.old)) }
{
    let ill_formed = Stopped {
        refusal: Refusal::IllFormed,
        place: 0,
    };
    let Some(start) = network_layout::load(head) else {
        return Err(ill_formed);
    };
    if !network_form::formed(records, start) {
        return Err(ill_formed);
    }
    let count = count_of(sends)?;
    let run = send_all(records, start, sends, count, draws, extras);
    match run.answer {
        Ok(used) => Ok(After {
            state: run.state,
            answer: used,
        }),
        Err(stopped) => {
            take_back(records, run.state, start.seq);
            Err(stopped)
        }
    }
}

// The tick, answering with the call that is refused.
fn tick_in(
    head: &mut [u64; HEAD_WORDS],
    records: &mut [u64; WORDS],
    sends: &[u64],
    draws: &[u64],
    extras: &[u64],
    now: u64,
    out: &mut [u64],
    told: &mut [u64; 3],
) -> Result<(), Stopped>
    ensures answer { stop_number result ≡ (ticked head.old records.old sends.now draws.now extras.now now out.old told.old).number }
    ensures within { IfErr result (λ s. s.place ≤ most_messages) }
    ensures head { head.new ≡ (ticked head.old records.old sends.now
        draws.now extras.now now out.old told.old).head }
    ensures records { records.new ≡ (ticked head.old records.old sends.now
        draws.now extras.now now out.old told.old).records }
    ensures out { out.new ≡ (ticked head.old records.old sends.now
        draws.now extras.now now out.old told.old).out }
    ensures told { told.new ≡ (ticked head.old records.old sends.now
        draws.now extras.now now out.old told.old).told }
{
    let run = run_sends(head, records, sends, draws, extras)?;
    let taken = network_take::take_on(records, run.state, now, out);
    match taken.answer {
        Err(refusal) => {
            take_back(records, run.state, head[network_layout::SEQ]);
            Err(Stopped {
                refusal,
                place: sends.len() / MESSAGE,
            })
        }
        Ok(k) => {
            network_layout::store(taken.state, head);
            *told = [run.answer.draws as u64, run.answer.extras as u64, k as u64];
            Ok(())
        }
    }
}

// The sends of a tick and then a take at `now`: the draws and the extras used and the records taken are told.
// Kept: the C interface tells a refusal and its place by one number (bellmantle_network_tick), here and in the call below.
pub fn tick(
    head: &mut [u64; HEAD_WORDS],
    records: &mut [u64; WORDS],
    sends: &[u64],
    draws: &[u64],
    extras: &[u64],
    now: u64,
    out: &mut [u64],
    told: &mut [u64; 3],
) -> u64
    ensures answer { result ≡ (ticked head.old records.old sends.now
        draws.now extras.now now out.old told.old).number }
    ensures head { head.new ≡ (ticked head.old records.old sends.now
        draws.now extras.now now out.old told.old).head }
    ensures records { records.new ≡ (ticked head.old records.old sends.now
        draws.now extras.now now out.old told.old).records }
    ensures out { out.new ≡ (ticked head.old records.old sends.now
        draws.now extras.now now out.old told.old).out }
    ensures told { told.new ≡ (ticked head.old records.old sends.now
        draws.now extras.now now out.old told.old).told }
{
    match tick_in(head, records, sends, draws, extras, now, out, told) {
        Ok(()) => 0,
        Err(stopped) => stopped.number(),
    }
}

// The sends of a list without a take: the draws and the extras used are told.
pub fn queue(
    head: &mut [u64; HEAD_WORDS],
    records: &mut [u64; WORDS],
    sends: &[u64],
    draws: &[u64],
    extras: &[u64],
    told: &mut [u64; 2],
) -> u64
    ensures answer { result ≡ (queued head.old records.old sends.now draws.now
        extras.now told.old).number }
    ensures head { head.new ≡ (queued head.old records.old sends.now
        draws.now extras.now told.old).head }
    ensures records { records.new ≡ (queued head.old records.old sends.now
        draws.now extras.now told.old).records }
    ensures told { told.new ≡ (queued head.old records.old sends.now
        draws.now extras.now told.old).told }
{
    match run_sends(head, records, sends, draws, extras) {
        Ok(run) => {
            network_layout::store(run.state, head);
            *told = [run.answer.draws as u64, run.answer.extras as u64];
            0
        }
        Err(stopped) => stopped.number(),
    }
}
