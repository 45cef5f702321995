// Property 6 once for an index: where property 3 has passed, all that newly commit an index hold there the canonical entry,
// so its copies are counted once. Yes is sure; after no property 6 is asked plant by plant.
#![tactic(auto)]

ghost use Rattle.std.specs.Prelude.{true, ◌≡◌, ℕ, ◌≤◌, ◌<◌, get_or};
ghost use Rattle.properties_snapshots.specs.Layout.{log_entries, commit_at, last_at};
ghost use Rattle.properties_snapshots.specs.Snapshots.{cluster_at};
ghost use Rattle.properties_durability.specs.Durability.{participants, needed_copies};
ghost use Rattle.properties_canonical.specs.Canonical.{canonical_copies, DurableAt, Moved};

use properties_snapshots::{Advance, ENTRIES};

// At every index that a plant has newly committed the canonical entry is held by enough plants.
pub fn all_durable(needed: usize, advance: &Advance<'_>) -> bool
    requires { needed ≡ needed_copies advance.now.snapshot.n (participants (cluster_at advance.now)) }
    ensures { result ≡ true → (r i : ℕ) → r < advance.now.snapshot.n
        → get_or advance.now.tracker.now (last_at r) 0 ≤ i → i < get_or advance.now.snapshot.plants.now (commit_at r) 0 → DurableAt (cluster_at advance.now) i }
{
    let (low, high) = span(advance);
    (low..high).all(|i| durable_at(needed, advance, i))
}

// Where the newly committed entries begin and end: at the lowest last commit and the highest commit of the plants whose commit
// has moved.
fn span(advance: &Advance<'_>) -> (usize, usize)
    ensures within { result.1 ≤ log_entries }
    ensures reached { (r : ℕ) → r < advance.now.snapshot.n → Moved advance.now.snapshot.plants.now advance.now.tracker.now r
        → (result.0 ≤ get_or advance.now.tracker.now (last_at r) 0) × (get_or advance.now.snapshot.plants.now (commit_at r) 0 ≤ result.1) }
{
    let mut low = ENTRIES;
    let mut high: usize = 0;
    for r in 0..advance.snapshot.n {
        let last = advance.last_of(r);
        let commit = advance.commit_of(r);
        if last < commit {
            low = low.min(last);
            high = high.max(commit);
        }
    }
    (low, high)
}

// At an index the canonical entry is held by enough plants.
fn durable_at(needed: usize, advance: &Advance<'_>, i: usize) -> bool
    requires { (i < log_entries) × (needed ≡ needed_copies advance.now.snapshot.n (participants (cluster_at advance.now))) }
    ensures { result ≡ true → DurableAt (cluster_at advance.now) i }
{
    canonical_copies(advance, i) >= needed
}

// The plants, of those not recovering, that hold the canonical entry at an index that one of them has committed.
fn canonical_copies(advance: &Advance<'_>, i: usize) -> usize
    requires { i < log_entries }
    ensures { (r : ℕ) → r < advance.now.snapshot.n → i < get_or advance.now.snapshot.plants.now (commit_at r) 0
        → result ≡ canonical_copies (cluster_at advance.now) i }
{
    let entry = properties_agreement::canonical_entry(advance, i);
    properties_durability::holders(&advance.snapshot, i, entry)
}
