// The properties of a tick in their order, on words that fit: 1 of every plant, then 3, 4 and 6 of every entry newly committed.
#![tactic(auto)]

ghost use Rattle.std.specs.Prelude.{Bool, Ok, ◌≡◌, ℕ, ◌<◌, get_or};
ghost use Rattle.properties_snapshots.specs.Layout.{commit_at};
ghost use Rattle.properties_snapshots.specs.Shape.{Tracked};
ghost use Rattle.properties_snapshots.specs.Snapshots.{cluster_of, cluster_at};
ghost use Rattle.properties_judge.specs.Ticks.{PrefixAgreement, NoDuplicates, Durability, over_each, over_entries, judged_entries, tick_judged};

use properties_snapshots::{Advance, Snapshot};
use properties_verdicts::{Break, Property};

// The properties of a tick in their order.
pub fn judge(snapshot: &Snapshot<'_>, tracker: &[u64]) -> Result<(), Break>
    requires { Tracked snapshot.now.n tracker.now }
    ensures { result ≡ tick_judged (cluster_of snapshot.now tracker.now) }
{
    properties_commits::commit_numbers(snapshot.n, snapshot.plants, tracker)?;
    judge_entries(&Advance {
        snapshot: *snapshot,
        tracker,
    })
}

// Properties 3, 4 and 6: those that ask about each entry newly committed.
fn judge_entries(advance: &Advance<'_>) -> Result<(), Break>
    ensures { result ≡ judged_entries (cluster_at advance.now) }
{
    agreement(advance)?;
    duplicates(advance)?;
    durability(advance)
}

// Property 3, entry by entry.
fn agreement(advance: &Advance<'_>) -> Result<(), Break>
    ensures { result ≡ over_entries PrefixAgreement (cluster_at advance.now) }
{
    entries(
        Property::PrefixAgreement,
        advance,
        |r, i| properties_agreement::agrees(advance, r, i),
    )
}

// Property 4: at once where the marks of ids show it, and else entry by entry.
fn duplicates(advance: &Advance<'_>) -> Result<(), Break>
    ensures { result ≡ over_entries NoDuplicates (cluster_at advance.now) }
{
    if properties_marks::none_seen(advance) {
        return Ok(());
    }
    entries(
        Property::NoDuplicates,
        advance,
        |r, i| properties_duplicates::unseen(advance, r, i),
    )
}

// Property 6 after 3 has passed: at once where every canonical entry has enough copies, and else entry by entry.
fn durability(advance: &Advance<'_>) -> Result<(), Break>
    requires { over_entries PrefixAgreement (cluster_at advance.now) ≡ Ok tt }
    ensures { result ≡ over_entries Durability (cluster_at advance.now) }
{
    let snapshot = &advance.snapshot;
    let needed = properties_durability::needed_copies(snapshot.n, snapshot.plants);
    if properties_canonical::all_durable(needed, advance) {
        return Ok(());
    }
    entries(Property::Durability, advance, |r, i| {
        needed <= properties_durability::copies(snapshot, r, i)
    })
}

// A property of entries: plants rising, then indexes from last commit up, left at the first broken entry with its
// place. A plant with nothing newly committed costs its two numbers.
fn entries<F: Fn(usize, usize) -> bool>(
    property: Property,
    advance: &Advance<'_>,
    holds: F,
) -> Result<(), Break>
    requires { (r i : ℕ) → r < advance.now.snapshot.n → i < get_or advance.now.snapshot.plants.now (commit_at r) 0 → F.pre holds r i }
    ensures { (f : ℕ → ℕ → Bool)
        → ((r i : ℕ) (b : Bool) → r < advance.now.snapshot.n → i < get_or advance.now.snapshot.plants.now (commit_at r) 0 → F.post holds r i b → b ≡ f r i)
        → result ≡ over_each property f (cluster_at advance.now) }
{
    let mut broken = None;
    'plants: for r in 0..advance.snapshot.n {
        let last = advance.last_of(r);
        let commit = advance.commit_of(r);
        for i in last..commit {
            if !holds(r, i) {
                broken = Some((r, i));
                break 'plants;
            }
        }
    }
    match broken {
        None => Ok(()),
        Some((plant, index)) => Err(Break {
            property,
            plant,
            index,
            test: 1,
        }),
    }
}
