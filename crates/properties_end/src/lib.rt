// The cluster property that is asked at the end of a run, over lent words: a snapshot of the plants with their logs, their values and
// the core.
#![tactic(auto)]

ghost use Rattle.std.specs.Prelude.{◌≡◌};
ghost use Rattle.properties_end.specs.Calls.{end_answer};

use properties_snapshots::Snapshot;
use properties_verdicts::{Failure, Refusal};

// At the end of a run: property 7 of the core plants, in the tracker's sight and without a word written.
#[tactic(auto, using(basis::proofs::Laws::between, properties_convergence::proofs::Core::core_known), unfolding(crate::specs::Calls::end_answer, crate::specs::Calls::end_refusal))]
pub fn end(
    n: usize,
    plants: &[u64],
    logs: &[u64],
    values: &[i64],
    core: &[u64],
    tracker: &[u64],
) -> Result<(), Failure>
    ensures { result ≡ end_answer n plants.now logs.now values.now core.now tracker.now }
{
    if !basis::plant_count(n) {
        return Err(Failure::Refused(Refusal::PlantCount));
    }
    let snapshot = Snapshot::new(n, plants, logs).ok_or(Refusal::BadSnapshot)?;
    if values.len() != n || !properties_convergence::core_fits(n, core) {
        return Err(Failure::Refused(Refusal::BadSnapshot));
    }
    if !properties_snapshots::tracker_fits(n, tracker) {
        return Err(Failure::Refused(Refusal::BadTracker));
    }
    properties_convergence::convergence(&snapshot, values, core)?;
    Ok(())
}
