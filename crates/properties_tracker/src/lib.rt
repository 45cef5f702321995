// The tracker that remembers what earlier ticks have shown: made anew, and told that a plant came back without its memory.
#![tactic(auto)]

ghost use Rattle.std.specs.Prelude.{◌≡◌, length};
ghost use Rattle.properties_verdicts.specs.Verdicts.{refused};
ghost use Rattle.properties_tracker.specs.Calls.{fresh_answer, fresh_words, reboot_answer, reboot_words};

use properties_snapshots::COUNT;
use properties_verdicts::Refusal;

// A fresh tracker: n and zeros, in every word.
#[tactic(auto, using(basis::proofs::Laws::between), unfolding(crate::specs::Calls::fresh_answer, crate::specs::Calls::fresh_words))]
pub fn fresh(n: usize, tracker: &mut [u64]) -> Result<(), Refusal>
    ensures answer { refused result ≡ fresh_answer n (length tracker.old) }
    ensures words { tracker.new ≡ fresh_words n tracker.old }
{
    if !basis::plant_count(n) {
        return Err(Refusal::PlantCount);
    }
    if tracker.len() != properties_snapshots::tracker_words(n) {
        return Err(Refusal::BadTracker);
    }
    tracker.fill(0);
    tracker[COUNT] = n as u64;
    Ok(())
}

// A plant came back without its memory: what was remembered of it starts over.
#[tactic(auto, using(basis::proofs::Laws::between, properties_snapshots::proofs::Known::tracker_known), unfolding(crate::specs::Calls::reboot_answer, crate::specs::Calls::reboot_words))]
pub fn reboot(n: usize, id: usize, tracker: &mut [u64]) -> Result<(), Refusal>
    ensures answer { refused result ≡ reboot_answer n id tracker.old }
    ensures words { tracker.new ≡ reboot_words n id tracker.old }
{
    if !basis::plant_count(n) {
        return Err(Refusal::PlantCount);
    }
    if n <= id {
        return Err(Refusal::NoSuchPlant);
    }
    if !properties_snapshots::tracker_fits(n, tracker) {
        return Err(Refusal::BadTracker);
    }
    tracker[properties_snapshots::last_at(id)] = 0;
    Ok(())
}
