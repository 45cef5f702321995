// A take on a network whose records are lent: what is due goes to the front of the lent output, in delivery order. And what is in flight,
// counted and listed.
#![tactic(auto)]

ghost use Rattle.std.specs.Prelude.{◌≡◌, true, length};
ghost use Rattle.nights.specs.Net.{collect};
ghost use Rattle.network_form.specs.Forms.{formed_in};
ghost use Rattle.network_form.specs.Calls.{head_after, records_after};
ghost use Rattle.network_take.specs.Takes.{counted_of, take_tells, take_gives, count_tells, list_tells, list_gives};

use calls::After;
use network_form::Head;
use network_options::Refusal;
use network_queue::{RECORD_SIZE, WORDS};

// A take on a well-formed network: how many records it took.
pub fn take_on(
    w: &mut [u64; WORDS],
    head: Head,
    tick: u64,
    out: &mut [u64],
) -> After<Head, Result<usize, Refusal>>
    requires { formed_in head w.old ≡ true }
    ensures head { result.state ≡ head_after (collect tick (length out.old)) head w.old }
    ensures records { w.new ≡ records_after (collect tick (length out.old)) head w.old }
    ensures answer { counted_of result.answer ≡ take_tells tick (length out.old) head w.old }
    ensures out { out.new ≡ take_gives tick out.old head w.old }
{
    let n = head.pending;
    let k = network_queue::due_front(w, n, tick);
    if out.len() < k * RECORD_SIZE {
        return After {
            state: head,
            answer: Err(Refusal::ShortOutput),
        };
    }
    network_queue::take_from(w, n, tick, k, out);
    let state = Head {
        pending: n - k,
        delivered: head.delivered + k as u64,
        ..head
    };
    After {
        state,
        answer: Ok(k),
    }
}

// A take.
pub fn take_in(
    w: &mut [u64; WORDS],
    head: Head,
    tick: u64,
    out: &mut [u64],
) -> After<Head, Result<usize, Refusal>>
    ensures head { result.state ≡ head_after (collect tick (length out.old)) head w.old }
    ensures records { w.new ≡ records_after (collect tick (length out.old)) head w.old }
    ensures answer { counted_of result.answer ≡ take_tells tick (length out.old) head w.old }
    ensures out { out.new ≡ take_gives tick out.old head w.old }
{
    if network_form::formed(w, head) {
        return take_on(w, head, tick, out);
    }
    After {
        state: head,
        answer: Err(Refusal::IllFormed),
    }
}

// How many messages are in flight.
pub fn count_in(w: &[u64; WORDS], head: Head) -> Result<usize, Refusal>
    ensures { counted_of result ≡ count_tells head w.now }
{
    if !network_form::formed(w, head) {
        return Err(Refusal::IllFormed);
    }
    Ok(head.pending)
}

// What is in flight, in delivery order, at the front of the lent output, and how many messages it is.
pub fn list_in(w: &[u64; WORDS], head: Head, out: &mut [u64]) -> Result<usize, Refusal>
    ensures answer { counted_of result ≡ list_tells (length out.old) head w.now }
    ensures out { out.new ≡ list_gives out.old head w.now }
{
    let n = count_in(w, head)?;
    if out.len() < n * RECORD_SIZE {
        return Err(Refusal::ShortOutput);
    }
    network_queue::copy_out(w, n * RECORD_SIZE, out);
    Ok(n)
}
