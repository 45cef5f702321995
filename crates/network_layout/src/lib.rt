// A network's head as the host lends it: 12 words, read and written. They are the bits of the loss and of the replay probability, minimum,
// mean, whether client messages are faulted (0 or 1), pending, seq, sent, delivered, lost, replayed, delayed.
#![tactic(auto)]

ghost use Rattle.std.specs.Prelude.{◌≡◌, true, [], IfOk};
ghost use Rattle.nights.specs.Net.{good_options};
ghost use Rattle.nights.specs.Tests.{verdict, option_tests};
ghost use Rattle.network_options.specs.Options.{plain_options};
ghost use Rattle.network_options.specs.Answers.{settled_of};
ghost use Rattle.network_layout.specs.Layout.{head_words, loaded, options_of, tested_of, answer_code};

use network_form::Head;
use network_options::{NetworkOptions, Refusal};

// The words of a head, and where it has its numbers.
pub const HEAD_WORDS: usize = 12;

const LOSS: usize = 0;

const REPLAY: usize = 1;

const MIN: usize = 2;

const MEAN: usize = 3;

const FLAG: usize = 4;

pub const PENDING: usize = 5;

pub const SEQ: usize = 6;

pub const SENT: usize = 7;

pub const DELIVERED: usize = 8;

pub const LOST: usize = 9;

pub const REPLAYED: usize = 10;

pub const DELAYED: usize = 11;

// Options handed in as words: the bits of the loss and of the replay probability, minimum and mean, and a flag that is no for 0 and yes
// otherwise.
#[derive(Clone, Copy)]
pub struct OptionWords {
    pub loss: u64,
    pub replay: u64,
    pub min: u64,
    pub mean: u64,
    pub flag: u64,
}

impl OptionWords {
    // The options that they are, if they pass the tests of options.
    pub fn options(self) -> Result<NetworkOptions, Refusal>
        ensures answer { tested_of result ≡ verdict (option_tests (options_of self) []) }
        ensures options { IfOk result (λ o. plain_options o ≡ options_of self) }
    {
        if !chance::good_word(self.loss) {
            return Err(Refusal::BadLoss);
        }
        if !chance::good_word(self.replay) {
            return Err(Refusal::BadReplay);
        }
        if self.mean < self.min {
            return Err(Refusal::MinOverMean);
        }
        Ok(NetworkOptions {
            packet_loss_probability: chance::of_word(self.loss),
            packet_replay_probability: chance::of_word(self.replay),
            one_way_delay_min: self.min,
            one_way_delay_mean: self.mean,
            fault_client_messages: self.flag != 0,
        })
    }
}

// The head of the words: words that are no good probability, or a flag that is neither 0 nor 1, are none.
#[tactic(auto, using(crate::proofs::Heads::no_loss, crate::proofs::Heads::no_replay, crate::proofs::Heads::no_flag, crate::proofs::Heads::fitting, crate::proofs::Heads::not_loaded, crate::proofs::Heads::is_loaded))]
pub fn load(words: &[u64; HEAD_WORDS]) -> Option<Head>
    ensures { result ≡ loaded words.now }
{
    let loss = words[LOSS];
    if !chance::good_word(loss) {
        return None;
    }
    let replay = words[REPLAY];
    if !chance::good_word(replay) {
        return None;
    }
    let flag = words[FLAG];
    if 1 < flag {
        return None;
    }
    Some(Head {
        options: NetworkOptions {
            packet_loss_probability: chance::of_word(loss),
            packet_replay_probability: chance::of_word(replay),
            one_way_delay_min: words[MIN],
            one_way_delay_mean: words[MEAN],
            fault_client_messages: flag == 1,
        },
        pending: words[PENDING] as usize,
        seq: words[SEQ],
        sent: words[SENT],
        delivered: words[DELIVERED],
        lost: words[LOST],
        replayed: words[REPLAYED],
        delayed: words[DELAYED],
    })
}

// The words of a head of good options.
pub fn store(head: Head, words: &mut [u64; HEAD_WORDS])
    requires { good_options (plain_options head.options) ≡ true }
    ensures { words.new ≡ head_words head }
{
    let options = head.options;
    *words = [
        chance::word_of(options.packet_loss_probability),
        chance::word_of(options.packet_replay_probability),
        options.one_way_delay_min,
        options.one_way_delay_mean,
        u64::from(options.fault_client_messages),
        head.pending as u64,
        head.seq,
        head.sent,
        head.delivered,
        head.lost,
        head.replayed,
        head.delayed,
    ];
}

// An answer as a number: 0 if the call is done, and else the number of its refusal.
pub fn answer_number(answer: Result<(), Refusal>) -> u64
    ensures { result ≡ answer_code (settled_of answer) }
{
    match answer {
        Ok(()) => 0,
        Err(refusal) => refusal.number(),
    }
}
