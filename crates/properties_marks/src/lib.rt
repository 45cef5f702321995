// Property 4 of all that is newly committed, by marks of ids: an id that meets no mark was surely not seen, and only
// where one meets a mark are the ids before it looked through. Yes is sure; after no the properties are asked one by one.
#![tactic(auto)]

ghost use Rattle.std.specs.Prelude.{true, ◌≡◌, ℕ, ◌<◌, ◌%◌, length, get_or};
ghost use Rattle.properties_snapshots.specs.Snapshots.{cluster_at};
ghost use Rattle.properties_marks.specs.Marks.{NoneSeen, marks, Marked};

use properties_snapshots::Advance;

// A mark for each id modulo 256.
const MARKS: usize = 256;

// So few new entries are looked through one by one: cheaper than clearing the marks.
const FEW: usize = 4;

// No plant has newly committed an id that was seen.
pub fn none_seen(advance: &Advance<'_>) -> bool
    ensures { result ≡ true → (r : ℕ) → r < advance.now.snapshot.n → NoneSeen (cluster_at advance.now) r }
{
    (0..advance.snapshot.n).all(|r| plant_unseen(advance, r))
}

// A plant has not.
fn plant_unseen(advance: &Advance<'_>, r: usize) -> bool
    requires { r < advance.now.snapshot.n }
    ensures { result ≡ true → NoneSeen (cluster_at advance.now) r }
{
    if advance.commit_of(r) <= advance.last_of(r) + FEW {
        one_by_one(advance, r)
    } else {
        by_marks(advance, r)
    }
}

// Each new id looked for among those before it.
fn one_by_one(advance: &Advance<'_>, r: usize) -> bool
    requires { r < advance.now.snapshot.n }
    ensures { result ≡ true → NoneSeen (cluster_at advance.now) r }
{
    (advance.last_of(r)..advance.commit_of(r)).all(|i| properties_duplicates::unseen(advance, r, i))
}

// Each new id marked, and looked for only where its mark is set already.
fn by_marks(advance: &Advance<'_>, r: usize) -> bool
    requires { r < advance.now.snapshot.n }
    ensures { result ≡ true → NoneSeen (cluster_at advance.now) r }
{
    let snapshot = &advance.snapshot;
    let last = advance.last_of(r);
    let at = properties_snapshots::seen_at(snapshot.n, r, 0);
    let mut seen = marks_of(&advance.tracker[at..at + last]);
    for i in last..advance.commit_of(r) {
        let mark = mark_of(snapshot.logged_id(r, i));
        if seen[mark] && !properties_duplicates::unseen(advance, r, i) {
            return false;
        }
        seen[mark] = true;
    }
    true
}

// The marks of the ids that the tracker has of a plant.
fn marks_of(ids: &[u64]) -> [bool; MARKS]
    ensures whole { length result ≡ marks }
    ensures marked { (j : ℕ) → j < length ids.now → Marked result (get_or ids.now j 0) }
{
    let mut seen = [false; MARKS];
    for id in ids {
        seen[mark_of(*id)] = true;
    }
    seen
}

// Where an id's mark stands.
fn mark_of(id: u64) -> usize
    ensures { result ≡ id % marks }
{
    (id % 256) as usize
}
