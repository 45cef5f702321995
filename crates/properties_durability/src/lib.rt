// Property 6: a committed entry is held by enough plants to be in every quorum that those not recovering could form.
#![tactic(auto)]

ghost use Rattle.std.specs.Prelude.{List, ◌≡◌, ℕ, ◌*◌, ◌≤◌, ◌<◌, length, get_or};
ghost use Rattle.basis.specs.Basis.{most};
ghost use Rattle.properties_snapshots.specs.Below.{count_below};
ghost use Rattle.properties_snapshots.specs.Cluster.{LogEntry, words_of_entry, cluster_in};
ghost use Rattle.properties_snapshots.specs.Layout.{log_entries, plant_words, size_at};
ghost use Rattle.properties_snapshots.specs.Snapshots.{cluster_of};
ghost use Rattle.properties_durability.specs.Durability.{participants, needed_copies, holds_copy, copies_of};

use properties_snapshots::Snapshot;

// So many copies meet every quorum that the plants not recovering could form.
// Kept: it takes n and the plants' words, and no `Snapshot`: docs/PROMISES.md has it ask for words of the right number alone.
pub fn needed_copies(n: usize, plants: &[u64]) -> usize
    requires { (n ≤ most) × (length plants.now ≡ n * plant_words) }
    ensures { (l t : List ℕ) → result ≡ needed_copies n (participants (cluster_in n plants.now l t)) }
{
    let taking = participants(n, plants);
    (taking + 1).saturating_sub(basis::quorum(n))
}

fn participants(n: usize, plants: &[u64]) -> usize
    requires { (n ≤ most) × (length plants.now ≡ n * plant_words) }
    ensures small { result ≤ n }
    ensures counted { (l t : List ℕ) → result ≡ participants (cluster_in n plants.now l t) }
{
    (0..n)
        .filter(|q| properties_snapshots::recovering_of(plants, *q) != 1)
        .count()
}

// Property 6: the plants, of those not recovering, that hold the entry of plant r at index i.
pub fn copies(snapshot: &Snapshot<'_>, r: usize, i: usize) -> usize
    requires { (r < snapshot.now.n) × (i < get_or snapshot.now.plants.now (size_at r) 0) }
    ensures { (t : List ℕ) → result ≡ copies_of (cluster_of snapshot.now t) r i }
{
    holders(snapshot, i, snapshot.entry(r, i))
}

// The plants, of those not recovering, that hold at index i the entry of these words.
pub fn holders(snapshot: &Snapshot<'_>, i: usize, entry: &[u64]) -> usize
    requires { i < log_entries }
    ensures { (e : LogEntry) (t : List ℕ) → entry.now ≡ words_of_entry e → result ≡ count_below snapshot.now.n (holds_copy (cluster_of snapshot.now t) i e) }
{
    (0..snapshot.n)
        .filter(|q| holds_copy(snapshot, i, entry, *q))
        .count()
}

#[tactic(auto, using(crate::proofs::Held::holds_in_words))]
fn holds_copy(snapshot: &Snapshot<'_>, i: usize, entry: &[u64], q: usize) -> bool
    requires { (i < log_entries) × (q < snapshot.now.n) }
    ensures { (e : LogEntry) (t : List ℕ) → entry.now ≡ words_of_entry e → result ≡ holds_copy (cluster_of snapshot.now t) i e q }
{
    snapshot.recovering_of(q) != 1
        && i < snapshot.size_of(q)
        && properties_snapshots::same_entry(snapshot.entry(q, i), entry)
}
