// Why a call on the plants is refused. One family of refusals serves the plants and the choice of a
// core; each call says which of them it tests, and in which order.
ghost use Rattle.std.specs.Prelude.{◌≡◌};
ghost use Rattle.plants.specs.Refusals.{plants_refusal};

#[derive(Clone, Copy)]
pub enum Refusal {
    // The number of plants is not 3 to 15.
    PlantCount,
    // The named plant is none of the plants.
    UnknownPlant,
    // A flag is set past the last plant, or a count is over its limit.
    IllFormed,
    // A count would pass its limit.
    CountFull,
    // A reboot has no draw for its nonce.
    NoNonce,
    // The recovering flags are not one for each plant, or one is neither 0 nor 1.
    BadFlags,
    // There are too few picks.
    TooFewPicks,
    // A pick is out of its range.
    PickOutOfRange,
    // Fewer plants than a quorum are healthy.
    TooFewHealthy,
}

impl Refusal {
    // Its number in the rules.
    pub fn number(self) -> u64
        ensures { result ≡ plants_refusal self }
    {
        match self {
            Refusal::PlantCount => 40,
            Refusal::UnknownPlant => 41,
            Refusal::IllFormed => 42,
            Refusal::CountFull => 43,
            Refusal::NoNonce => 44,
            Refusal::BadFlags => 45,
            Refusal::TooFewPicks => 46,
            Refusal::PickOutOfRange => 47,
            Refusal::TooFewHealthy => 48,
        }
    }
}
