// Property 7, at the end of a run: the core plants hold equal logs, fully committed, and equal values.
#![tactic(auto)]

ghost use Rattle.std.specs.Prelude.{List, ◌≡◌, ℕ, ◌≤◌, ◌<◌, length, get_or};
ghost use Rattle.basis.specs.Basis.{most};
ghost use Rattle.properties_snapshots.specs.Cluster.{same_entry, entry_in};
ghost use Rattle.properties_snapshots.specs.Layout.{entry_at, log_entries};
ghost use Rattle.properties_snapshots.specs.Snapshots.{cluster_of};
ghost use Rattle.properties_verdicts.specs.Verdicts.{broken, first_answer, at_entry};
ghost use Rattle.properties_verdicts.specs.declared.Property.TheVariants.{Convergence};
ghost use Rattle.properties_convergence.specs.Convergence.{same_value, converged_with, converged};
ghost use Rattle.properties_convergence.specs.Core.{rises_below, core_fits};

use properties_snapshots::Snapshot;
use properties_verdicts::{Break, Property};

// 60, at the end: the core's ids, of which there is one at least.
#[tactic(auto, unfolding(crate::specs::Core::core_fits))]
pub fn core_fits(n: usize, core: &[u64]) -> bool
    requires { n ≤ most }
    ensures { result ≡ core_fits n core.now }
{
    !core.is_empty() && rises_below(n, core)
}

// They rise strictly and stay below n: each is at least one more than the one before.
#[tactic(auto, using(crate::proofs::Rising::low, crate::proofs::Rising::high, crate::proofs::Rising::next, crate::proofs::Rising::none))]
fn rises_below(n: usize, core: &[u64]) -> bool
    requires { n ≤ most }
    ensures { result ≡ rises_below n 0 core.now }
{
    let mut least: usize = 0;
    for word in core {
        let id = *word as usize;
        if id < least || n <= id {
            return false;
        }
        least = id + 1;
    }
    true
}

// Property 7: core plant by core plant, each against the first.
#[tactic(auto, using(crate::proofs::Passing::from_the_first, crate::proofs::Passing::passes_one, crate::proofs::Passing::stops_there, crate::proofs::Passing::none_left, std::proofs::lemmas::List::take_all))]
pub fn convergence(snapshot: &Snapshot<'_>, values: &[i64], core: &[u64]) -> Result<(), Break>
    requires lent { (length values.now ≡ snapshot.now.n) × (0 < length core.now) }
    requires by_index { (k : ℕ) → k < length core.now → get_or core.now k 0 < snapshot.now.n }
    ensures { (t : List ℕ) → result ≡ converged (cluster_of snapshot.now t) values.now core.now }
{
    let reference = core[0] as usize;
    // the first one too, for its commit
    for id in core {
        converged_with(snapshot, values, reference, *id as usize)?;
    }
    Ok(())
}

// Property 7 of a plant against the reference: length, entries, commit = length, value.
fn converged_with(
    snapshot: &Snapshot<'_>,
    values: &[i64],
    reference: usize,
    id: usize,
) -> Result<(), Break>
    requires { (length values.now ≡ snapshot.now.n) × (reference < snapshot.now.n) × (id < snapshot.now.n) }
    ensures { (t : List ℕ) → result ≡ converged_with (cluster_of snapshot.now t) values.now reference id }
{
    let size = snapshot.size_of(id);
    if size != snapshot.size_of(reference) {
        return Err(broken(id, 0, 1));
    }
    same_logs(snapshot, reference, id, size)?;
    if snapshot.commit_of(id) != size {
        return Err(broken(id, 0, 3));
    }
    if !same_value(values[id], values[reference]) {
        return Err(broken(id, 0, 4));
    }
    Ok(())
}

// A break of property 7.
fn broken(plant: usize, index: usize, test: u64) -> Break
    ensures { result ≡ broken Convergence plant index test }
{
    Break {
        property: Property::Convergence,
        plant,
        index,
        test,
    }
}

fn same_value(a: i64, b: i64) -> bool
    ensures { result ≡ same_value a b }
{
    a == b
}

// The first entry, of the first `size`, in which a plant's log is not the reference's.
fn same_logs(snapshot: &Snapshot<'_>, reference: usize, id: usize, size: usize) -> Result<(), Break>
    requires { (reference < snapshot.now.n) × (id < snapshot.now.n) × (size ≤ log_entries) }
    ensures { result ≡ first_answer (λ i. at_entry Convergence id i 2
        (same_entry (entry_in snapshot.now.logs.now (entry_at id i)) (entry_in snapshot.now.logs.now (entry_at reference i)))) 0 size }
{
    for i in 0..size {
        if !snapshot.same_logged(id, reference, i) {
            return Err(broken(id, i, 2));
        }
    }
    Ok(())
}
