// A network without its records, and the test that every call makes first (23): its options good, its counters even, and its lent records
// good, in order, none numbered twice, with zeros behind them.
#![tactic(auto)]

ghost use Rattle.std.specs.Prelude.{◌≡◌};
ghost use Rattle.nights.specs.Net.{fresh};
ghost use Rattle.network_options.specs.Options.{plain_options};
ghost use Rattle.network_form.specs.Forms.{head_of, formed_in, counts_good};

use network_options::NetworkOptions;
use network_queue::{CAPACITY, WORDS};

// Messages that can be sent.
pub const SENT_LIMIT: u64 = 0x4000_0000_0000_0000;

// A network without its records: the part of it that goes by value where the records are lent.
#[derive(Clone, Copy)]
pub struct Head {
    pub options: NetworkOptions,
    // How many messages are in flight.
    pub pending: usize,
    // The number of the last copy queued.
    pub seq: u64,
    pub sent: u64,
    pub delivered: u64,
    pub lost: u64,
    pub replayed: u64,
    // Copies delayed beyond the minimum transit time.
    pub delayed: u64,
}

impl Head {
    // That of a fresh network: nothing in flight, nothing counted.
    pub fn empty(options: NetworkOptions) -> Head
        ensures { result ≡ head_of (fresh (plain_options options)) }
    {
        Head {
            options,
            pending: 0,
            seq: 0,
            sent: 0,
            delivered: 0,
            lost: 0,
            replayed: 0,
            delayed: 0,
        }
    }

    // The counters, over whole numbers. The sums are taken once their parts are known to be small, so none wraps.
    pub fn counts_good(self) -> bool
        ensures { result ≡ counts_good self }
    {
        if CAPACITY < self.pending || SENT_LIMIT < self.sent {
            return false;
        }
        if self.sent < self.lost || self.sent < self.replayed {
            return false;
        }
        let made = self.sent + self.replayed;
        if made < self.delivered {
            return false;
        }
        let held = self.pending as u64;
        made == self.delivered + self.lost + held
            && self.seq == self.delivered + held
            && self.delayed <= self.seq
    }
}

// Whether a network is well formed: its words lent, the rest of it by value.
// Kept: the words and the head stay two parameters, here and in the calls above. In a struct that holds the loan each clause would name both
// by a path, and the head goes from call to call by value while the words stay where the host has them.
pub fn formed(w: &[u64; WORDS], head: Head) -> bool
    ensures { result ≡ formed_in head w.now }
{
    head.options.good()
        && head.counts_good()
        && network_records::records_good(w, head.pending, head.seq)
}
