// The newest records of a network dropped: what a rewind of a send needs, and a tick that is refused after some of its sends.
#![tactic(auto)]

ghost use Rattle.std.specs.Prelude.{◌≡◌, ◌++◌, ◌-◌, ◌*◌, ◌≤◌, length, drop, replicate};
ghost use Rattle.nights.specs.Record.{record_words, recs, record_size};
ghost use Rattle.nights.specs.Net.{keep, capacity};
ghost use Rattle.network_drop.specs.Numbered.{up_to};

use network_queue::{RECORD_SIZE, SEQ, WORDS};

// The record to look at first: it is numbered above `last`, or stands behind all n, and those in front of it stay where they are.
fn first_above(w: &[u64; WORDS], n: usize, last: u64) -> usize
    requires { n ≤ capacity }
    ensures within { result ≤ n }
    ensures kept { keep (up_to last) (recs w.now 0 result) ≡ recs w.now 0 result }
{
    for i in 0..n {
        if last < w[i * RECORD_SIZE + SEQ] {
            return i;
        }
    }
    n
}

// Those of the first n records whose number is at most `last` move to the front, in their order; how many they are. The first `from` are
// known to be among them.
fn keep_front(w: &mut [u64; WORDS], n: usize, from: usize, last: u64) -> usize
    requires { (n ≤ capacity) × (from ≤ n)
        × (keep (up_to last) (recs w.old 0 from) ≡ recs w.old 0 from) }
    ensures count { result ≡ length (keep (up_to last) (recs w.old 0 n)) }
    ensures words { w.new ≡ record_words (keep (up_to last) (recs w.old 0 n)) ++ drop (result * record_size) w.old }
{
    let mut m = from;
    for i in from..n {
        let r = network_queue::record_at(w, i * RECORD_SIZE);
        if r.seq <= last {
            network_queue::put(w, m * RECORD_SIZE, r);
            m += 1;
        }
    }
    m
}

// The records numbered above `last` are dropped, and zeros stand behind the others.
pub fn drop_above(w: &mut [u64; WORDS], n: usize, last: u64) -> usize
    requires { n ≤ capacity }
    ensures count { result ≡ length (keep (up_to last) (recs w.old 0 n)) }
    ensures words { w.new ≡ record_words (keep (up_to last) (recs w.old 0 n))
        ++ (replicate ((n - result) * record_size) 0 ++ drop (n * record_size) w.old) }
{
    let from = first_above(w, n, last);
    let m = keep_front(w, n, from, last);
    network_queue::clear(w, m * RECORD_SIZE, n * RECORD_SIZE);
    m
}
