// The cluster properties that are asked after every tick, over lent words: a snapshot of the plants with their logs, and a tracker
// that remembers what earlier ticks have shown. A call judges first and writes after: a break or a refusal leaves the tracker as it came.
#![tactic(auto)]

ghost use Rattle.std.specs.Prelude.{◌≡◌};
ghost use Rattle.properties_tick.specs.Calls.{tick_answer, tick_words};

use properties_snapshots::Snapshot;
use properties_verdicts::{Failure, Refusal};

// After a tick: properties 1, 3, 4 and 6, and on a pass the tracker remembers what was newly committed.
// With nothing newly committed, as in most ticks, one look at the n plants' numbers answers, however long the logs are. The dear
// case is 15 plants with 128 new entries each: 3 asks each for the first plant that committed it, at most 15 * 128 * 14 = 26,880
// numbers; 4 marks 15 * 128 = 1,920 ids, and compares an id with those before it only where marks meet, at most 15 * 128 * 127 / 2 =
// 121,920 comparisons of a word; and 6 compares the canonical entry at each index with 15 logs, 128 * 15 = 1,920 comparisons of an
// entry. Where 4 or 6 does not pass so, it is asked again entry by entry, for the place to be told.
#[tactic(auto, using(basis::proofs::Laws::between, properties_snapshots::proofs::Known::tracker_known, crate::proofs::Passed::judged_forward, crate::proofs::Quiet::quiet_answer, crate::proofs::Quiet::quiet_words), unfolding(crate::specs::Calls::tick_answer, crate::specs::Calls::tick_refusal, crate::specs::Calls::tick_words))]
pub fn tick(n: usize, plants: &[u64], logs: &[u64], tracker: &mut [u64]) -> Result<(), Failure>
    ensures answer { result ≡ tick_answer n plants.now logs.now tracker.old }
    ensures words { tracker.new ≡ tick_words n plants.now logs.now tracker.old }
{
    if properties_quick::nothing_new(n, plants, logs, tracker) {
        return Ok(());
    }
    if !basis::plant_count(n) {
        return Err(Failure::Refused(Refusal::PlantCount));
    }
    let snapshot = Snapshot::new(n, plants, logs).ok_or(Refusal::BadSnapshot)?;
    if !properties_snapshots::tracker_fits(n, tracker) {
        return Err(Failure::Refused(Refusal::BadTracker));
    }
    properties_judge::judge(&snapshot, tracker)?;
    properties_remembering::remember(&snapshot, tracker);
    Ok(())
}
