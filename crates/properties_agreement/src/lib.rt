// Property 3: all plants agree on the committed prefix of the log.
#![tactic(auto)]

ghost use Rattle.std.specs.Prelude.{List, ◌≡◌, ℕ, ◌*◌, ◌≤◌, ◌<◌, length, get_or};
ghost use Rattle.basis.specs.Basis.{fewest, most};
ghost use Rattle.properties_snapshots.specs.Cluster.{words_of_entry, cluster_in};
ghost use Rattle.properties_snapshots.specs.Layout.{log_entries, plant_words, commit_at};
ghost use Rattle.properties_snapshots.specs.Snapshots.{cluster_at};
ghost use Rattle.properties_agreement.specs.Agreement.{committer, canonical_entry, agrees};

use properties_snapshots::Advance;

// Property 3: the entry equals the canonical one.
#[tactic(auto, using(crate::proofs::Reached::own_entry), unfolding(crate::specs::Agreement::agrees))]
pub fn agrees(advance: &Advance<'_>, r: usize, i: usize) -> bool
    requires { (r < advance.now.snapshot.n) × (i < get_or advance.now.snapshot.plants.now (commit_at r) 0) }
    ensures { result ≡ agrees (cluster_at advance.now) r i }
{
    properties_snapshots::same_entry(canonical_entry(advance, i), advance.snapshot.entry(r, i))
}

// The canonical entry at an index that one of the plants has committed, in its words: the tracker's, or that of the first plant that
// committed it.
pub fn canonical_entry<'a>(advance: &Advance<'a>, i: usize) -> &'a [u64]
    requires { i < log_entries }
    ensures { (r : ℕ) → r < advance.now.snapshot.n → i < get_or advance.now.snapshot.plants.now (commit_at r) 0
        → result.now ≡ words_of_entry (canonical_entry (cluster_at advance.now) i) }
{
    if i < advance.known() {
        return advance.canonical(i);
    }
    let snapshot = &advance.snapshot;
    let q = committer(snapshot.n, snapshot.plants, i);
    snapshot.entry(q, i)
}

// The first plant that has committed an index that one of them has.
// Kept: it takes n and the plants' words, and no `Snapshot`: docs/PROMISES.md has it ask for words of the right number alone.
pub fn committer(n: usize, plants: &[u64], i: usize) -> usize
    requires { (fewest ≤ n) × (n ≤ most) × (length plants.now ≡ n * plant_words) }
    ensures below { result < n }
    ensures first { (l t : List ℕ) → result ≡ committer (cluster_in n plants.now l t) i }
{
    (0..n - 1)
        .find(|q| i < properties_snapshots::commit_of(plants, *q))
        .unwrap_or(n - 1)
}
