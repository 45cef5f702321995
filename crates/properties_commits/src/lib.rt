// Property 1: a plant's commit number never goes back and never passes its op number, which is its log's length.
#![tactic(auto)]

ghost use Rattle.std.specs.Prelude.{List, ◌≡◌, ℕ, ◌*◌, ◌≤◌, length};
ghost use Rattle.basis.specs.Basis.{most};
ghost use Rattle.properties_snapshots.specs.Cluster.{cluster_in};
ghost use Rattle.properties_snapshots.specs.Layout.{plant_words, tracker_words};
ghost use Rattle.properties_commits.specs.Commits.{commit_tests, commit_numbers};

use properties_verdicts::{Break, Property};

// Property 1 over all plants; what the logs hold plays no part.
pub fn commit_numbers(n: usize, plants: &[u64], tracker: &[u64]) -> Result<(), Break>
    requires { (n ≤ most) × (length plants.now ≡ n * plant_words) × (length tracker.now ≡ tracker_words n) }
    ensures { (l : List ℕ) → result ≡ commit_numbers (cluster_in n plants.now l tracker.now) }
{
    for r in 0..n {
        let commit = properties_snapshots::commit_of(plants, r);
        let op = properties_snapshots::op_of(plants, r);
        let size = properties_snapshots::size_of(plants, r);
        let last = properties_snapshots::last_of(tracker, r);
        commit_number(r, commit, op, size, last)?;
    }
    Ok(())
}

// Property 1 of a plant.
#[tactic(auto, unfolding(crate::specs::Commits::commit_tests))]
fn commit_number(r: usize, commit: usize, op: usize, size: usize, last: usize) -> Result<(), Break>
    ensures { result ≡ commit_tests r commit op size last }
{
    let test = if op != size {
        1
    } else if op < commit {
        2
    } else if commit < last {
        3
    } else {
        return Ok(());
    };
    Err(Break {
        property: Property::CommitNumber,
        plant: r,
        index: 0,
        test,
    })
}
