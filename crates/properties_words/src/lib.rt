// The cluster properties over lent words, with their answer in four of them: the broken property's number or 0, the plant, the index and
// the test. A call answers 0, or the number of its refusal; then no lent word is changed, those lent for the answer included.
// Kept: a refusal is told by its number and an answer in four words, since these are the bodies of C's bellmantle_properties_*.
#![tactic(auto)]

ghost use Rattle.std.specs.Prelude.{◌≡◌, length};
ghost use Rattle.properties_tracker.specs.Calls.{fresh_answer, fresh_words, reboot_answer, reboot_words};
ghost use Rattle.properties_tick.specs.Calls.{tick_answer, tick_words};
ghost use Rattle.properties_end.specs.Calls.{end_answer};
ghost use Rattle.properties_told.specs.Told.{answer_number, answer_told};

use properties_told::ANSWER_WORDS;
use properties_verdicts::Failure;

// A fresh tracker.
pub fn fresh(n: u64, tracker: &mut [u64]) -> u64
    ensures answer { result ≡ answer_number (fresh_answer n (length tracker.old)) }
    ensures tracker { tracker.new ≡ fresh_words n tracker.old }
{
    let answer = properties_tracker::fresh(n as usize, tracker);
    properties_told::number(answer.map_err(Failure::Refused))
}

// A plant came back without its memory.
pub fn reboot(n: u64, id: u64, tracker: &mut [u64]) -> u64
    ensures answer { result ≡ answer_number (reboot_answer n id tracker.old) }
    ensures tracker { tracker.new ≡ reboot_words n id tracker.old }
{
    let answer = properties_tracker::reboot(n as usize, id as usize, tracker);
    properties_told::number(answer.map_err(Failure::Refused))
}

// After a tick.
pub fn tick(
    n: u64,
    plants: &[u64],
    logs: &[u64],
    tracker: &mut [u64],
    told: &mut [u64; ANSWER_WORDS],
) -> u64
    ensures answer { result ≡ answer_number (tick_answer n plants.now logs.now tracker.old) }
    ensures tracker { tracker.new ≡ tick_words n plants.now logs.now tracker.old }
    ensures told { told.new ≡ answer_told (tick_answer n plants.now logs.now tracker.old) told.old }
{
    let answer = properties_tick::tick(n as usize, plants, logs, tracker);
    properties_told::tell(answer, told)
}

// At the end of a run.
pub fn end(
    n: u64,
    plants: &[u64],
    logs: &[u64],
    values: &[i64],
    core: &[u64],
    tracker: &[u64],
    told: &mut [u64; ANSWER_WORDS],
) -> u64
    ensures answer { result ≡ answer_number (end_answer n plants.now logs.now values.now core.now tracker.now) }
    ensures told { told.new ≡ answer_told (end_answer n plants.now logs.now values.now core.now tracker.now) told.old }
{
    let answer = properties_end::end(n as usize, plants, logs, values, core, tracker);
    properties_told::tell(answer, told)
}
