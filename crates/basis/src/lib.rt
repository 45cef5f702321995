// What several crates share: how many plants there are, and how many of them are a quorum. Beside it definitions and laws that several
// crates cite, in specs/ and proofs/.
#![tactic(auto)]

ghost use Rattle.std.specs.Prelude.{◌≡◌};
ghost use Rattle.basis.specs.Basis.{plant_count, quorum};

// The fewest plants, and the most.
pub const FEWEST: usize = 3;

pub const MOST: usize = 15;

// Whether there may be n plants.
#[tactic(auto, unfolding(crate::specs::Basis::plant_count))]
pub fn plant_count(n: usize) -> bool
    ensures { result ≡ plant_count n }
{
    (FEWEST..=MOST).contains(&n)
}

// A quorum of n plants.
pub fn quorum(n: usize) -> usize
    ensures { result ≡ quorum n }
{
    n / 2 + 1
}
