// A snapshot of the plants whose words fit: 3 to 15 of them, four words and a log of at most 128 entries for each.

ghost use Rattle.properties_snapshots.specs.Shape.{Snapshot as IsSnapshot};

#[derive(Clone, Copy)]
pub struct Snapshot<'a> {
    pub n: usize,
    pub plants: &'a [u64],
    pub logs: &'a [u64],
    pub ghost fits: { IsSnapshot n plants.now logs.now },
}

impl<'a> Snapshot<'a> {
    ghost use Rattle.std.specs.Prelude.{false, true, ◌&&◌, ◌≡◌, ◌≤◌, ◌<◌, get_or, MatchOption};
    ghost use Rattle.basis.specs.Basis.{plant_count};
    ghost use Rattle.properties_snapshots.specs.Cluster.{same_entry, words_of_entry, entry_in};
    ghost use Rattle.properties_snapshots.specs.Fits.{snapshot_fits};
    ghost use Rattle.properties_snapshots.specs.Layout.{log_entries, id_at, recovering_at, commit_at, size_at, entry_at};

    // 60: the words as a snapshot, where they fit.
    #[tactic(auto, using(crate::proofs::Known::snapshot_known, basis::proofs::Laws::between))]
    pub fn new(n: usize, plants: &'a [u64], logs: &'a [u64]) -> Option<Snapshot<'a>>
        ensures { MatchOption result (plant_count n && snapshot_fits n plants.now logs.now ≡ false)
            (λ s. (plant_count n && snapshot_fits n plants.now logs.now ≡ true) × (s.n ≡ n) × (s.plants.now ≡ plants.now) × (s.logs.now ≡ logs.now)) }
    {
        if basis::plant_count(n) && crate::snapshot_fits(n, plants, logs) {
            Some(Snapshot { n, plants, logs })
        } else {
            None
        }
    }

    // Plant r's words: whether it is recovering (1 if so), its commit number and log length.
    pub fn recovering_of(&self, r: usize) -> usize
        requires { r < self.now.n }
        ensures { result ≡ get_or self.now.plants.now (recovering_at r) 0 }
    {
        crate::recovering_of(self.plants, r)
    }

    pub fn commit_of(&self, r: usize) -> usize
        requires { r < self.now.n }
        ensures { result ≡ get_or self.now.plants.now (commit_at r) 0 }
    {
        crate::commit_of(self.plants, r)
    }

    pub fn size_of(&self, r: usize) -> usize
        requires { r < self.now.n }
        ensures length { result ≡ get_or self.now.plants.now (size_at r) 0 }
        ensures within { result ≤ log_entries }
    {
        crate::size_of(self.plants, r)
    }

    // The op id of its entry at index i.
    pub fn logged_id(&self, r: usize, i: usize) -> u64
        requires { (r < self.now.n) × (i < log_entries) }
        ensures { result ≡ get_or self.now.logs.now (id_at (entry_at r i)) 0 }
    {
        crate::logged_id(self.logs, r, i)
    }

    // Its entry at index i, in its words.
    pub fn entry(&self, r: usize, i: usize) -> &'a [u64]
        requires { (r < self.now.n) × (i < log_entries) }
        ensures { result.now ≡ words_of_entry (entry_in self.now.logs.now (entry_at r i)) }
    {
        crate::entry_of(self.logs, crate::entry_at(r, i))
    }

    // Two plants' entries at index i are equal.
    pub fn same_logged(&self, q: usize, r: usize, i: usize) -> bool
        requires { (q < self.now.n) × (r < self.now.n) × (i < log_entries) }
        ensures { result ≡ same_entry (entry_in self.now.logs.now (entry_at q i)) (entry_in self.now.logs.now (entry_at r i)) }
    {
        crate::same_entry(self.entry(q, i), self.entry(r, i))
    }
}
