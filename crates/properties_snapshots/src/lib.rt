// The words of a snapshot and of the tracker: where they stand, and what must be right about them before a property is
// looked at. The functions that ask something of their words are for the crates of the properties.
#![tactic(auto)]

ghost use Rattle.std.specs.Prelude.{◌≡◌, ◌+◌, ◌*◌, ◌≤◌, ◌<◌, length, get_or};
ghost use Rattle.basis.specs.Basis.{most};
ghost use Rattle.properties_snapshots.specs.Cluster.{LogEntry, same_entry, words_of_entry, entry_in};
ghost use Rattle.properties_snapshots.specs.Fits.{plants_fit, snapshot_fits, lasts_fit, tracker_fits};
ghost use Rattle.properties_snapshots.specs.Layout.{entry_words, id_at, log_entries, plant_words, recovering_at, commit_at, op_at, size_at, entry_at};
ghost use Rattle.properties_snapshots.specs.Layout.{last_at, canonical_at, seen_at, tracker_words};

mod advance;
mod snapshot;

pub use advance::Advance;
pub use snapshot::Snapshot;

// An entry is client, request, op id and op body. A log, and the tracker's canonical part, have room for 128.
pub const ENTRY: usize = 4;

const ID: usize = 2;

pub const ENTRIES: usize = 128;

const LOG: usize = ENTRIES * ENTRY;

// A plant is recovering, commit, op number and log length.
pub const PLANT: usize = 4;

const COMMIT: usize = 1;

const OP: usize = 2;

const SIZE: usize = 3;

// The tracker is n, the canonical length, n last commits, the canonical entries, and for each plant the ids seen.
pub const COUNT: usize = 0;

pub const LENGTH: usize = 1;

const LASTS: usize = 2;

// ---- Where each word stands

// The entry of plant r at index i.
pub fn entry_at(r: usize, i: usize) -> usize
    requires { (r ≤ most) × (i ≤ log_entries) }
    ensures { result ≡ entry_at r i }
{
    r * LOG + i * ENTRY
}

// The tracker's last commit of plant r, canonical entry at index i, and id seen of plant r at index i.
pub fn last_at(r: usize) -> usize
    requires { r ≤ most }
    ensures { result ≡ last_at r }
{
    LASTS + r
}

pub fn canonical_at(n: usize, i: usize) -> usize
    requires { (n ≤ most) × (i ≤ log_entries) }
    ensures { result ≡ canonical_at n i }
{
    last_at(n) + i * ENTRY
}

pub fn seen_at(n: usize, r: usize, i: usize) -> usize
    requires { (n ≤ most) × (r ≤ most) × (i ≤ log_entries) }
    ensures { result ≡ seen_at n r i }
{
    canonical_at(n, ENTRIES) + r * ENTRIES + i
}

// How many words a tracker has: they end where the ids of one plant more would begin.
pub fn tracker_words(n: usize) -> usize
    requires { n ≤ most }
    ensures { result ≡ tracker_words n }
{
    seen_at(n, n, 0)
}

// ---- What stands there

// A word as a place or a count.
pub fn number(words: &[u64], at: usize) -> usize
    requires { at < length words.now }
    ensures { result ≡ get_or words.now at 0 }
{
    words[at] as usize
}

// Plant r's words: whether it is recovering (1 if so), its commit number, op number and log length.
// Kept: one reader with the word's offset as a parameter would be `number` again; these four are its names. They take slices, and
// not a `Snapshot`, since commit_numbers, committer and needed_copies ask for words of the right number alone (docs/PROMISES.md).
pub fn recovering_of(plants: &[u64], r: usize) -> usize
    requires { (r ≤ most) × (recovering_at r < length plants.now) }
    ensures { result ≡ get_or plants.now (recovering_at r) 0 }
{
    number(plants, r * PLANT)
}

pub fn commit_of(plants: &[u64], r: usize) -> usize
    requires { (r ≤ most) × (commit_at r < length plants.now) }
    ensures { result ≡ get_or plants.now (commit_at r) 0 }
{
    number(plants, r * PLANT + COMMIT)
}

pub fn op_of(plants: &[u64], r: usize) -> usize
    requires { (r ≤ most) × (op_at r < length plants.now) }
    ensures { result ≡ get_or plants.now (op_at r) 0 }
{
    number(plants, r * PLANT + OP)
}

pub fn size_of(plants: &[u64], r: usize) -> usize
    requires { (r ≤ most) × (size_at r < length plants.now) }
    ensures { result ≡ get_or plants.now (size_at r) 0 }
{
    number(plants, r * PLANT + SIZE)
}

// The entry that stands from a place on, in its words.
#[tactic(auto, using(crate::proofs::Same::entry_taken))]
pub fn entry_of(words: &[u64], at: usize) -> &[u64]
    requires { at + entry_words ≤ length words.now }
    ensures { result.now ≡ words_of_entry (entry_in words.now at) }
{
    &words[at..at + ENTRY]
}

// Whether two entries, each in its words, are equal.
#[tactic(auto, using(crate::proofs::Same::words_same))]
pub fn same_entry(one: &[u64], other: &[u64]) -> bool
    ensures { (a b : LogEntry) → one.now ≡ words_of_entry a → other.now ≡ words_of_entry b → result ≡ same_entry a b }
{
    one == other
}

// The op id of plant r's entry at index i, and its last commit in the tracker.
pub fn logged_id(logs: &[u64], r: usize, i: usize) -> u64
    requires { (r ≤ most) × (i ≤ log_entries) × (id_at (entry_at r i) < length logs.now) }
    ensures { result ≡ get_or logs.now (id_at (entry_at r i)) 0 }
{
    logs[entry_at(r, i) + ID]
}

pub fn last_of(tracker: &[u64], r: usize) -> usize
    requires { (r ≤ most) × (last_at r < length tracker.now) }
    ensures { result ≡ get_or tracker.now (last_at r) 0 }
{
    number(tracker, last_at(r))
}

// ---- What must be right about them

// 60: the snapshot's words.
#[tactic(auto, unfolding(crate::specs::Fits::snapshot_fits))]
pub fn snapshot_fits(n: usize, plants: &[u64], logs: &[u64]) -> bool
    requires { n ≤ most }
    ensures { result ≡ snapshot_fits n plants.now logs.now }
{
    plants.len() == n * PLANT && logs.len() == n * LOG && plants_fit(n, plants)
}

// Every recovering word is 0 or 1, and every log has at most 128 entries.
fn plants_fit(n: usize, plants: &[u64]) -> bool
    requires { (n ≤ most) × (length plants.now ≡ n * plant_words) }
    ensures { result ≡ plants_fit n plants.now }
{
    (0..n).all(|r| recovering_of(plants, r) <= 1 && size_of(plants, r) <= ENTRIES)
}

// 61: the tracker's words.
#[tactic(auto, unfolding(crate::specs::Fits::tracker_fits))]
pub fn tracker_fits(n: usize, tracker: &[u64]) -> bool
    requires { n ≤ most }
    ensures { result ≡ tracker_fits n tracker.now }
{
    tracker.len() == tracker_words(n)
        && number(tracker, COUNT) == n
        && number(tracker, LENGTH) <= ENTRIES
        && lasts_fit(n, tracker)
}

// No last commit is over the canonical length.
fn lasts_fit(n: usize, tracker: &[u64]) -> bool
    requires { (n ≤ most) × (length tracker.now ≡ tracker_words n) }
    ensures { result ≡ lasts_fit n tracker.now }
{
    let length = number(tracker, LENGTH);
    (0..n).all(|r| last_of(tracker, r) <= length)
}
