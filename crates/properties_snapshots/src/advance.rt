// What properties 3, 4 and 6 are asked of: a snapshot and a tracker that fit each other, where property 1 has passed, so that
// commits lie within the logs and none went back. The entries newly committed are a plant's from its last commit up to its commit.

ghost use Rattle.properties_snapshots.specs.Shape.{Tracked, Forward};

use crate::snapshot::Snapshot;

#[derive(Clone, Copy)]
pub struct Advance<'a> {
    pub snapshot: Snapshot<'a>,
    pub tracker: &'a [u64],
    pub ghost tracked: { Tracked snapshot.n tracker.now },
    pub ghost forward: { Forward snapshot.n snapshot.plants.now tracker.now },
}

impl<'a> Advance<'a> {
    ghost use Rattle.std.specs.Prelude.{◌≡◌, ◌≤◌, ◌<◌, get_or};
    ghost use Rattle.properties_snapshots.specs.Layout.{log_entries, commit_at, size_at, length_at, last_at, canonical_at};
    ghost use Rattle.properties_snapshots.specs.Cluster.{words_of_entry, entry_in};

    // Plant r's commit, and its last commit in the tracker.
    pub fn commit_of(&self, r: usize) -> usize
        requires { r < self.now.snapshot.n }
        ensures commit { result ≡ get_or self.now.snapshot.plants.now (commit_at r) 0 }
        ensures within { (result ≤ log_entries) × (result ≤ get_or self.now.snapshot.plants.now (size_at r) 0) }
    {
        self.snapshot.commit_of(r)
    }

    pub fn last_of(&self, r: usize) -> usize
        requires { r < self.now.snapshot.n }
        ensures last { result ≡ get_or self.now.tracker.now (last_at r) 0 }
        ensures onward { result ≤ get_or self.now.snapshot.plants.now (commit_at r) 0 }
    {
        crate::last_of(self.tracker, r)
    }

    // How many canonical entries the tracker has.
    pub fn known(&self) -> usize
        ensures length { result ≡ get_or self.now.tracker.now length_at 0 }
        ensures within { result ≤ log_entries }
    {
        crate::number(self.tracker, crate::LENGTH)
    }

    // The canonical entry that the tracker has at index i, in its words.
    pub fn canonical(&self, i: usize) -> &'a [u64]
        requires { i < log_entries }
        ensures { result.now ≡ words_of_entry (entry_in self.now.tracker.now (canonical_at self.now.snapshot.n i)) }
    {
        crate::entry_of(self.tracker, crate::canonical_at(self.snapshot.n, i))
    }
}
