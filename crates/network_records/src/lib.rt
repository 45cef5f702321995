// The test of the records of a network, over words that the caller lends: each record good, in delivery order, none numbered twice, and
// zeros behind them.
#![tactic(auto)]

ghost use Rattle.std.specs.Prelude.{◌≡◌, true, ◌-◌, ◌*◌, ◌≤◌, drop};
ghost use Rattle.nights.specs.Record.{record_size, recs};
ghost use Rattle.nights.specs.Net.{capacity};
ghost use Rattle.network_queue.specs.Plain.{plain_record};
ghost use Rattle.network_queue.specs.Packed.{zeros};
ghost use Rattle.network_records.specs.Form.{may_follow, in_order, among, distinct, records_rise, records_formed};

use network_queue::{LAST_KIND, LAST_SORT, RECORD_SIZE, Record, SEQ, WORDS};

// The words, by fours.
const FOURS: usize = WORDS / 4;

// Whether a record is good and may follow the key (d, q): its seq within 1..=last, its kind and its sort among those there are, and
// its own key the greater.
#[tactic(auto, unfolding(crate::specs::Form::may_follow, nights::specs::Net::good_record))]
fn may_follow(last: u64, d: u64, q: u64, r: Record) -> bool
    ensures { result ≡ may_follow last d q (plain_record r) }
{
    (1..=last).contains(&r.seq)
        && r.kind <= LAST_KIND
        && r.sort <= LAST_SORT
        && (d, q) < (r.due, r.seq)
}

// Whether the first n records rise in (due, seq), each with its seq within 1..=last, its kind and its sort among those there are.
fn in_order(w: &[u64; WORDS], n: usize, last: u64) -> bool
    requires { n ≤ capacity }
    ensures { result ≡ in_order last 0 0 (recs w.now 0 n) }
{
    let (mut d, mut q) = (0, 0);
    for i in 0..n {
        let r = network_queue::record_at(w, i * RECORD_SIZE);
        if !may_follow(last, d, q, r) {
            return false;
        }
        (d, q) = (r.due, r.seq);
    }
    true
}

// Whether a number is that of a record from `from` up to n.
fn seq_among(w: &[u64; WORDS], from: usize, n: usize, seq: u64) -> bool
    requires { (from ≤ n) × (n ≤ capacity) }
    ensures { result ≡ among seq (recs w.now (from * record_size) (n - from)) }
{
    for i in from..n {
        if w[i * RECORD_SIZE + SEQ] == seq {
            return true;
        }
    }
    false
}

// Whether no two of the first n records have one number. From the last record to the first, each number's mark, at the number
// modulo 256, is set: where a mark is not set yet the number is new, and only where it is are the later records looked through.
fn none_twice(w: &[u64; WORDS], n: usize) -> bool
    requires { n ≤ capacity }
    ensures { result ≡ distinct (recs w.now 0 n) }
{
    let mut marks = [false; 256];
    for i in (0..n).rev() {
        let seq = w[i * RECORD_SIZE + SEQ];
        let m = (seq % 256) as usize;
        if marks[m] && seq_among(w, i + 1, n, seq) {
            return false;
        }
        marks[m] = true;
    }
    true
}

// Whether the first n records surely rise in (due, seq), each in its range, and none is numbered twice; no says nothing. It is one walk
// that rarely branches: the sorts, the kinds and the marks that were set before are gathered, and tested once at its end. Two numbers
// may share a mark, and kinds gathered may be more than each of them: then the two walks above decide.
fn quickly_good(w: &[u64; WORDS], n: usize, last: u64) -> bool
    requires { n ≤ capacity }
    ensures { result ≡ true → (in_order last 0 0 (recs w.now 0 n) ≡ true) × (distinct (recs w.now 0 n) ≡ true) }
{
    let mut seen = [false; 256];
    let mut met = false;
    let (mut sorts, mut kinds) = (0, 0);
    let (mut d, mut q) = (0, 0);
    for i in 0..n {
        let r = network_queue::record_at(w, i * RECORD_SIZE);
        if r.seq == 0 || last < r.seq || r.due < d || (r.due - d) | u64::from(q < r.seq) == 0 {
            return false;
        }
        sorts |= r.sort;
        kinds |= r.kind;
        let m = (r.seq % 256) as usize;
        met |= seen[m];
        seen[m] = true;
        (d, q) = (r.due, r.seq);
    }
    sorts <= LAST_SORT && kinds <= LAST_KIND && !met
}

// Whether every word behind the first n records is 0: all of them are gathered before one test, four at a turn and each in its own
// place, which lets a compiler read several at a time and wait for none.
// Kept: four sums. With one fold over the words the test of a network of no records takes 158 ns, and with them 98 to 128.
fn zero_from(w: &[u64; WORDS], n: usize) -> bool
    requires { n ≤ capacity }
    ensures { result ≡ zeros (drop (n * record_size) w.now) }
{
    let (mut a, mut b, mut c, mut d) = (0, 0, 0, 0);
    for i in n * 2..FOURS {
        let p = i * 4;
        a |= w[p];
        b |= w[p + 1];
        c |= w[p + 2];
        d |= w[p + 3];
    }
    (a | b | c | d) == 0
}

// Whether the first n records are each good, in order, and none is numbered twice. What the quick walk can't tell the two others do.
#[tactic(auto, using(crate::proofs::Clauses::told))]
pub fn records_rise(w: &[u64; WORDS], n: usize, seq: u64) -> bool
    requires { n ≤ capacity }
    ensures { result ≡ records_rise w.now n seq }
{
    quickly_good(w, n, seq) || in_order(w, n, seq) && none_twice(w, n)
}

// The records: each good, in order, none numbered twice, and zeros behind them.
#[tactic(auto, using(crate::proofs::Clauses::whole))]
pub fn records_good(w: &[u64; WORDS], n: usize, seq: u64) -> bool
    requires { n ≤ capacity }
    ensures { result ≡ records_formed w.now n seq }
{
    records_rise(w, n, seq) && zero_from(w, n)
}
