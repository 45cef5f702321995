// The fate of a message alone: what its draws and extras decide under options handed in as words, with no network at hand. A call answers
// 0, or the number of its refusal; then no lent word is changed.
#![tactic(auto)]

ghost use Rattle.std.specs.Prelude.{◌≡◌};
ghost use Rattle.network_fates.specs.Answers.{decided_by};
ghost use Rattle.network_layout.specs.Layout.{options_of};
ghost use Rattle.network_fate.specs.Fates.{fate_told, fate_number, fate_words, Decides};

use network_fates::Decision;
use network_layout::OptionWords;
use network_options::Refusal;
use network_queue::LAST_KIND;

// The words of an answer: whether it is lost, whether it is replayed, the draws and the extras used, the copy's due tick and the
// original's.
pub const TOLD_WORDS: usize = 6;

// A decision, told.
#[tactic(auto, unfolding(nights::specs::Net::lost_by, nights::specs::Net::replayed_by))]
fn told_of(decision: Decision) -> [u64; TOLD_WORDS]
    ensures { result ≡ fate_told (decided_by decision) }
{
    match decision {
        Decision::Lost { draws } => [1, 0, draws as u64, 0, 0, 0],
        Decision::Once {
            due,
            draws,
            extras,
            ..
        } => [0, 0, draws as u64, extras as u64, 0, due],
        Decision::Twice {
            copy,
            original,
            draws,
            extras,
            ..
        } => [0, 1, draws as u64, extras as u64, copy, original],
    }
}

// What is decided, or the first test that fails.
fn decide(
    options: OptionWords,
    now: u64,
    kind: u64,
    draws: &[u64],
    extras: &[u64],
) -> Result<Decision, Refusal>
    ensures { Decides result (options_of options) now kind draws.now extras.now }
{
    let options = options.options()?;
    if LAST_KIND < kind {
        return Err(Refusal::BadKindOrSort);
    }
    network_fates::decide(options, now, kind, draws, extras)
}

// What becomes of a message of a kind that is sent at tick `now`.
// Kept: the C interface tells a refusal by its number (bellmantle_fate).
pub fn fate(
    options: OptionWords,
    now: u64,
    kind: u64,
    draws: &[u64],
    extras: &[u64],
    told: &mut [u64; TOLD_WORDS],
) -> u64
    ensures answer { result ≡ fate_number (options_of options) now kind draws.now extras.now }
    ensures told { told.new ≡ fate_words (options_of options) now kind draws.now extras.now told.old }
{
    match decide(options, now, kind, draws, extras) {
        Ok(decision) => {
            *told = told_of(decision);
            0
        }
        Err(refusal) => refusal.number(),
    }
}
