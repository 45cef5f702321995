// The options of a network, and why a call is refused. The refusals are one family for the network and the journal.
#![tactic(auto)]

ghost use Rattle.std.specs.Prelude.{◌≡◌, []};
ghost use Rattle.nights.specs.Net.{good_options};
ghost use Rattle.nights.specs.Tests.{verdict, option_tests};
ghost use Rattle.network_options.specs.Options.{plain_options, struct_options, perfect_options};
ghost use Rattle.network_options.specs.Answers.{refusal_number, settled_of};

// Network fault injection options.
#[derive(Clone, Copy)]
pub struct NetworkOptions {
    // Probability per message that it is lost.
    pub packet_loss_probability: f64,
    // Probability per message that it is delivered twice.
    pub packet_replay_probability: f64,
    // Minimum one-way delay in ticks: the transit time every message takes.
    pub one_way_delay_min: u64,
    // Mean one-way delay in ticks. Delay above the minimum is a fault, lent by the host, so messages can be reordered. Equal to the
    // minimum, there is none.
    pub one_way_delay_mean: u64,
    // Whether faults also apply to requests.
    pub fault_client_messages: bool,
}

// Why a call is refused; `refusal_number` in specs/Answers gives each its number. The last three are for the journaled calls.
#[derive(Clone, Copy, Debug, PartialEq, Eq)]
pub enum Refusal {
    BadLoss,
    BadReplay,
    MinOverMean,
    IllFormed,
    BadKindOrSort,
    SentLimit,
    ShortDraws,
    ShortExtras,
    LateTick,
    Full,
    ShortOutput,
    BadJournal,
    NoJournalRoom,
    TooFarBack,
}

impl Refusal {
    // A refusal's number.
    pub fn number(self) -> u64
        ensures { result ≡ refusal_number self }
    {
        match self {
            Refusal::BadLoss => 20,
            Refusal::BadReplay => 21,
            Refusal::MinOverMean => 22,
            Refusal::IllFormed => 23,
            Refusal::BadKindOrSort => 24,
            Refusal::SentLimit => 25,
            Refusal::ShortDraws => 26,
            Refusal::ShortExtras => 27,
            Refusal::LateTick => 28,
            Refusal::Full => 29,
            Refusal::ShortOutput => 30,
            Refusal::BadJournal => 31,
            Refusal::NoJournalRoom => 32,
            Refusal::TooFarBack => 33,
        }
    }
}

impl NetworkOptions {
    // A perfect network: no loss, no replay, no delay.
    pub fn perfect() -> NetworkOptions
        ensures { result ≡ struct_options perfect_options }
    {
        NetworkOptions {
            packet_loss_probability: 0.0,
            packet_replay_probability: 0.0,
            one_way_delay_min: 0,
            one_way_delay_mean: 0,
            fault_client_messages: false,
        }
    }

    // Whether a network may have the options: 0 <= p <= 1 for both probabilities, and the minimum at most the mean.
    pub fn good(self) -> bool
        ensures { result ≡ good_options (plain_options self) }
    {
        chance::good(self.packet_loss_probability)
            && chance::good(self.packet_replay_probability)
            && self.one_way_delay_min <= self.one_way_delay_mean
    }

    // What options that are handed in answer: the first test that they fail.
    pub fn validate(self) -> Result<(), Refusal>
        ensures { settled_of result ≡ verdict (option_tests (plain_options self) []) }
    {
        if !chance::good(self.packet_loss_probability) {
            return Err(Refusal::BadLoss);
        }
        if !chance::good(self.packet_replay_probability) {
            return Err(Refusal::BadReplay);
        }
        if self.one_way_delay_mean < self.one_way_delay_min {
            return Err(Refusal::MinOverMean);
        }
        Ok(())
    }
}
