// The commonest tick: no commit has moved. One look at the plants' numbers shows that the words fit and that every
// property passes. The answers here are sure where they are yes; no says nothing, and the properties themselves are asked.
#![tactic(auto)]

ghost use Rattle.std.specs.Prelude.{true, ◌≡◌, ℕ, ◌*◌, ◌≤◌, ◌<◌, length};
ghost use Rattle.basis.specs.Basis.{most};
ghost use Rattle.properties_snapshots.specs.Layout.{plant_words, tracker_words};
ghost use Rattle.properties_quick.specs.Quick.{Still, NothingNew};

use properties_snapshots::{COUNT, ENTRIES, LENGTH, PLANT};

// The words fit, every property passes, and no commit has moved.
#[tactic(auto, using(basis::proofs::Laws::between))]
pub fn nothing_new(n: usize, plants: &[u64], logs: &[u64], tracker: &[u64]) -> bool
    ensures { result ≡ true → NothingNew n plants.now logs.now tracker.now }
{
    basis::plant_count(n)
        && plants.len() == n * PLANT
        && logs.len() == properties_snapshots::entry_at(n, 0)
        && tracker.len() == properties_snapshots::tracker_words(n)
        && properties_snapshots::number(tracker, COUNT) == n
        && properties_snapshots::number(tracker, LENGTH) <= ENTRIES
        && all_still(n, plants, tracker)
}

// Every plant's numbers are right and its commit is its last commit.
fn all_still(n: usize, plants: &[u64], tracker: &[u64]) -> bool
    requires { (n ≤ most) × (length plants.now ≡ n * plant_words) × (length tracker.now ≡ tracker_words n) }
    ensures { result ≡ true → (r : ℕ) → r < n → Still plants.now tracker.now r }
{
    (0..n).all(|r| still(n, plants, tracker, r))
}

// A plant's.
fn still(n: usize, plants: &[u64], tracker: &[u64], r: usize) -> bool
    requires { (n ≤ most) × (length plants.now ≡ n * plant_words) × (length tracker.now ≡ tracker_words n) × (r < n) }
    ensures { result ≡ true → Still plants.now tracker.now r }
{
    let commit = properties_snapshots::commit_of(plants, r);
    let op = properties_snapshots::op_of(plants, r);
    properties_snapshots::recovering_of(plants, r) <= 1
        && commit == properties_snapshots::last_of(tracker, r)
        && commit <= properties_snapshots::number(tracker, LENGTH)
        && op == properties_snapshots::size_of(plants, r)
        && commit <= op
        && op <= ENTRIES
}
