// Property 4: no op id appears twice in a plant's committed log.
#![tactic(auto)]

ghost use Rattle.std.specs.Prelude.{not, ◌≡◌, ◌-◌, ◌+◌, ◌≤◌, ◌<◌, eqb, length, get_or};
ghost use Rattle.basis.specs.Basis.{most};
ghost use Rattle.properties_snapshots.specs.Below.{all_below};
ghost use Rattle.properties_snapshots.specs.Layout.{id_at, log_entries, commit_at, entry_at};
ghost use Rattle.properties_snapshots.specs.Snapshots.{cluster_at};
ghost use Rattle.properties_duplicates.specs.Duplicates.{unseen};

use properties_snapshots::Advance;

// Property 4: the op id differs from the plant's first i ids: the tracker's below last commit, and then the log's.
pub fn unseen(advance: &Advance<'_>, r: usize, i: usize) -> bool
    requires { (r < advance.now.snapshot.n) × (i < get_or advance.now.snapshot.plants.now (commit_at r) 0) }
    ensures { result ≡ unseen (cluster_at advance.now) r i }
{
    let snapshot = &advance.snapshot;
    let id = snapshot.logged_id(r, i);
    let known = i.min(advance.last_of(r));
    let at = properties_snapshots::seen_at(snapshot.n, r, 0);
    none_seen(&advance.tracker[at..at + known], id) && none_logged(snapshot.logs, r, known, i, id)
}

// Ids that were seen all differ from an id. All are looked at, which lets a compiler compare several at a time: that they do
// is the common case.
fn none_seen(ids: &[u64], id: u64) -> bool
    ensures { result ≡ all_below (length ids.now) (λ j. not (eqb (get_or ids.now j 0) id)) }
{
    ids.iter().fold(true, |other, seen| other & (*seen != id))
}

// The ids of a plant's log from one index up to another all differ from an id.
fn none_logged(logs: &[u64], r: usize, from: usize, to: usize, id: u64) -> bool
    requires { (r ≤ most) × (from ≤ to) × (to ≤ log_entries) × (entry_at r log_entries ≤ length logs.now) }
    ensures { result ≡ all_below (to - from) (λ k. not (eqb (get_or logs.now (id_at (entry_at r (from + k))) 0) id)) }
{
    (from..to).all(|j| properties_snapshots::logged_id(logs, r, j) != id)
}
