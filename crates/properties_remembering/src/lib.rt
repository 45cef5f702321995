// What the tracker remembers after a tick whose properties all passed.
#![tactic(auto)]

ghost use Rattle.std.specs.Prelude.{List, ◌∷◌, ◌≡◌, ℕ, ◌+◌, ◌-◌, ◌≤◌, ◌<◌, length, get_or};
ghost use Rattle.basis.specs.Basis.{laid};
ghost use Rattle.properties_snapshots.specs.Below.{numbered, max_below};
ghost use Rattle.properties_snapshots.specs.Cluster.{words_of_entries, entry_in};
ghost use Rattle.properties_snapshots.specs.Layout.{commit_at, entry_at, length_at, canonical_at, seen_at, tracker_words, log_entries};
ghost use Rattle.properties_snapshots.specs.Shape.{Tracked, Forward};
ghost use Rattle.properties_snapshots.specs.Snapshots.{cluster_of};
ghost use Rattle.properties_agreement.specs.Agreement.{committer};
ghost use Rattle.properties_remembering.specs.Remembering.{with_ids, remembered};

use properties_snapshots::{ENTRY, LENGTH, Snapshot};

// After a pass: the newly seen ids, the appended entries, the last commits and the canonical length. The ids come
// first, since the last commits say where they begin.
pub fn remember(snapshot: &Snapshot<'_>, tracker: &mut [u64])
    requires { Tracked snapshot.now.n tracker.old × Forward snapshot.now.n snapshot.now.plants.now tracker.old }
    ensures { tracker.new ≡ remembered (cluster_of snapshot.now tracker.old) tracker.old }
{
    let known = properties_snapshots::number(tracker, LENGTH);
    let longest = length_after(snapshot, known);
    put_ids(snapshot, tracker);
    append(snapshot, tracker, known, longest);
    put_commits(snapshot, tracker, longest);
}

// The canonical length with all that is committed now.
fn length_after(snapshot: &Snapshot<'_>, known: usize) -> usize
    ensures { result ≡ max_below snapshot.now.n (λ r. get_or snapshot.now.plants.now (commit_at r) 0) known }
{
    let mut longest = known;
    for r in 0..snapshot.n {
        longest = longest.max(snapshot.commit_of(r));
    }
    longest
}

fn put_ids(snapshot: &Snapshot<'_>, tracker: &mut [u64])
    requires { Tracked snapshot.now.n tracker.old × Forward snapshot.now.n snapshot.now.plants.now tracker.old }
    ensures { tracker.new ≡ with_ids (cluster_of snapshot.now tracker.old) snapshot.now.n tracker.old }
{
    for r in 0..snapshot.n {
        let last = properties_snapshots::last_of(tracker, r);
        put_plant_ids(snapshot, r, last, tracker);
    }
}

// The ids of a plant's entries from `last` up to its commit.
fn put_plant_ids(snapshot: &Snapshot<'_>, r: usize, last: usize, tracker: &mut [u64])
    requires commits { (r < snapshot.now.n) × (last ≤ get_or snapshot.now.plants.now (commit_at r) 0) × (get_or snapshot.now.plants.now (commit_at r) 0 ≤ log_entries) }
    requires words { length tracker.old ≡ tracker_words snapshot.now.n }
    ensures { tracker.new ≡ laid tracker.old (seen_at snapshot.now.n r last)
        (numbered (get_or snapshot.now.plants.now (commit_at r) 0 - last) (λ k. (entry_in snapshot.now.logs.now (entry_at r (last + k))).id)) }
{
    for i in last..snapshot.commit_of(r) {
        tracker[properties_snapshots::seen_at(snapshot.n, r, i)] = snapshot.logged_id(r, i);
    }
}

// The canonical entries from `known` up to `longest`, each of the first plant that committed it.
fn append(snapshot: &Snapshot<'_>, tracker: &mut [u64], known: usize, longest: usize)
    requires { (known ≤ longest) × (longest ≤ log_entries) × (length tracker.old ≡ tracker_words snapshot.now.n) }
    ensures { (t : List ℕ) → tracker.new ≡ laid tracker.old (canonical_at snapshot.now.n known)
        (words_of_entries (numbered (longest - known) (λ k. entry_in snapshot.now.logs.now (entry_at (committer (cluster_of snapshot.now t) (known + k)) (known + k))))) }
{
    for i in known..longest {
        let q = properties_agreement::committer(snapshot.n, snapshot.plants, i);
        let to = properties_snapshots::canonical_at(snapshot.n, i);
        copy_entry(snapshot.entry(q, i), tracker, to);
    }
}

// An entry's words over those of the tracker.
fn copy_entry(entry: &[u64], tracker: &mut [u64], to: usize)
    requires { to + length entry.now ≤ length tracker.old }
    ensures { tracker.new ≡ laid tracker.old to entry.now }
{
    tracker[to..to + entry.len()].copy_from_slice(entry);
}

fn put_commits(snapshot: &Snapshot<'_>, tracker: &mut [u64], longest: usize)
    requires { length tracker.old ≡ tracker_words snapshot.now.n }
    ensures { tracker.new ≡ laid tracker.old length_at (longest ∷ numbered snapshot.now.n (λ r. get_or snapshot.now.plants.now (commit_at r) 0)) }
{
    tracker[LENGTH] = longest as u64;
    for r in 0..snapshot.n {
        tracker[properties_snapshots::last_at(r)] = snapshot.commit_of(r) as u64;
    }
}
