// Simulated network with fault injection. The host hands it what is to be sent, with the draws and delays that decide the message's
// fate, and every tick takes what is due. The network is a value: each call hands back the network that follows, and a call that is
// refused hands back the one that it was given.
#![tactic(auto)]

ghost use Rattle.std.specs.Prelude.{◌≡◌, true, [], length};
ghost use Rattle.nights.specs.Net.{capacity, sent_limit, good_options, fresh, send, collect, choose};
ghost use Rattle.nights.specs.Tests.{verdict, option_tests};
ghost use Rattle.network_options.specs.Options.{plain_options};
ghost use Rattle.network_options.specs.Answers.{settled_of};
ghost use Rattle.network_form.specs.Calls.{answer_in, records_after};
ghost use Rattle.network_send.specs.Sends.{plain_letter, sent_of, send_tells};
ghost use Rattle.network_take.specs.Takes.{counted_of, take_tells, take_gives, count_tells, list_tells, list_gives};
ghost use Rattle.network.specs.Forms.{struct_of};
ghost use Rattle.network.specs.Calls.{first_network, call_answer, call_network};

use calls::After;
use network_form::Head;
use network_options::{NetworkOptions, Refusal};
use network_queue::WORDS;
use network_send::{Accepted, Letter};

#[derive(Clone, Copy)]
pub struct Network {
    pub head: Head,
    // Messages in flight, in the order of (due tick, number): eight words each, and zeros behind them.
    pub words: [u64; WORDS],
}

// Whether a network may change its options to these. The records stay.
fn options_in(w: &[u64; WORDS], head: Head, options: NetworkOptions) -> Result<(), Refusal>
    ensures answer { settled_of result ≡ answer_in (choose (plain_options options)) head w.now }
    ensures records { w.now ≡ records_after (choose (plain_options options)) head w.now }
{
    if !network_form::formed(w, head) {
        return Err(Refusal::IllFormed);
    }
    options.validate()
}

// A fresh network of good options.
fn empty(options: NetworkOptions) -> Network
    requires { good_options (plain_options options) ≡ true }
    ensures { result ≡ struct_of (fresh (plain_options options)) }
{
    Network {
        head: Head::empty(options),
        words: [0; WORDS],
    }
}

impl Network {
    // Messages that can be in flight, and messages that can be sent.
    pub const CAPACITY: usize = network_queue::CAPACITY;

    pub const SENT_LIMIT: u64 = network_form::SENT_LIMIT;

    // The two limits, which are those of the rules.
    pub fn most_pending() -> usize
        ensures { result ≡ capacity }
    {
        Network::CAPACITY
    }

    pub fn most_sent() -> u64
        ensures { result ≡ sent_limit }
    {
        Network::SENT_LIMIT
    }

    // A fresh network of these options: nothing in flight, nothing counted. Beside a refusal stands that of the perfect options.
    pub fn new(options: NetworkOptions) -> After<Network, Result<(), Refusal>>
        ensures network { result.state ≡ first_network (plain_options options) }
        ensures answer { settled_of result.answer ≡ verdict (option_tests (plain_options options) []) }
    {
        let answer = options.validate();
        let first = if answer.is_ok() {
            options
        } else {
            NetworkOptions::perfect()
        };
        After {
            state: empty(first),
            answer,
        }
    }

    // Replaces the fault options. Messages already in flight keep their scheduled delivery tick.
    pub fn set_options(self, options: NetworkOptions) -> After<Network, Result<(), Refusal>>
        ensures network { result.state ≡ call_network (choose (plain_options options)) self }
        ensures answer { settled_of result.answer ≡ call_answer (choose (plain_options options)) self }
    {
        let answer = options_in(&self.words, self.head, options);
        let mut next = self;
        if answer.is_ok() {
            next.head.options = options;
        }
        After {
            state: next,
            answer,
        }
    }

    // Number of messages in flight.
    pub fn pending(self) -> Result<usize, Refusal>
        ensures { counted_of result ≡ count_tells self.head self.words }
    {
        network_take::count_in(&self.words, self.head)
    }

    // Messages in flight, in delivery order, at the front of the lent output, and how many they are.
    pub fn in_flight(self, out: &mut [u64]) -> Result<usize, Refusal>
        ensures answer { counted_of result ≡ list_tells (length out.old) self.head self.words }
        ensures out { out.new ≡ list_gives out.old self.head self.words }
    {
        network_take::list_in(&self.words, self.head, out)
    }

    // Takes every message due at tick `now`, in delivery order, to the front of the lent output: how many they are.
    pub fn take_due(self, now: u64, out: &mut [u64]) -> After<Network, Result<usize, Refusal>>
        ensures network { result.state ≡ call_network (collect now (length out.old)) self }
        ensures answer { counted_of result.answer ≡ take_tells now (length out.old) self.head self.words }
        ensures out { out.new ≡ take_gives now out.old self.head self.words }
    {
        let mut words = self.words;
        let taken = network_take::take_in(&mut words, self.head, now, out);
        After {
            state: Network {
                head: taken.state,
                words,
            },
            answer: taken.answer,
        }
    }

    // Accepts a message, applying faults.
    pub fn send(
        self,
        letter: Letter,
        draws: &[u64],
        extras: &[u64],
    ) -> After<Network, Result<Accepted, Refusal>>
        ensures network { result.state ≡ call_network (send (plain_letter letter) draws.now extras.now) self }
        ensures answer { sent_of result.answer ≡ send_tells (plain_letter letter) draws.now extras.now self.head self.words }
    {
        let mut words = self.words;
        let sent = network_send::send_in(&mut words, self.head, letter, draws, extras);
        After {
            state: Network {
                head: sent.state,
                words,
            },
            answer: sent.answer,
        }
    }
}
