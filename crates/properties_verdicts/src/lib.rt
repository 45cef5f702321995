// What a call about the properties fails with: the first broken place, or why it was refused. A pass is `Ok(())`.
#![tactic(auto)]

ghost use Rattle.std.specs.Prelude.{◌≡◌};
ghost use Rattle.properties_verdicts.specs.Verdicts.{property_number, properties_refusal};
ghost use Rattle.properties_verdicts.specs.declared.Failure.TheVariants.{Broken, Refused};

// The properties, by the Rust's names in short.
#[derive(Clone, Copy, Debug, PartialEq, Eq)]
pub enum Property {
    CommitNumber,
    PrefixAgreement,
    NoDuplicates,
    Durability,
    Convergence,
}

impl Property {
    // The numbers that the rules give.
    #[tactic(auto, unfolding(crate::specs::Verdicts::property_number))]
    pub fn number(self) -> u64
        ensures { result ≡ property_number self }
    {
        match self {
            Property::CommitNumber => 1,
            Property::PrefixAgreement => 3,
            Property::NoDuplicates => 4,
            Property::Durability => 6,
            Property::Convergence => 7,
        }
    }
}

// Why a call is refused: n is not 3 to 15; the id is not below n; the snapshot's or the core's words are not as
// they must be; the tracker's are not.
#[derive(Clone, Copy, Debug, PartialEq, Eq)]
pub enum Refusal {
    PlantCount,
    NoSuchPlant,
    BadSnapshot,
    BadTracker,
}

impl Refusal {
    #[tactic(auto, unfolding(crate::specs::Verdicts::properties_refusal))]
    pub fn number(self) -> u64
        ensures { result ≡ properties_refusal self }
    {
        match self {
            Refusal::PlantCount => 40,
            Refusal::NoSuchPlant => 41,
            Refusal::BadSnapshot => 60,
            Refusal::BadTracker => 61,
        }
    }
}

// The place of a break, the first one: the plant, the index, and the test in the order written.
#[derive(Clone, Copy, Debug, PartialEq, Eq)]
pub struct Break {
    pub property: Property,
    pub plant: usize,
    pub index: usize,
    pub test: u64,
}

// Why a call does not pass: a property is broken, or it was refused.
#[derive(Clone, Copy, Debug, PartialEq, Eq)]
pub enum Failure {
    Broken(Break),
    Refused(Refusal),
}

impl From<Break> for Failure {
    ghost from_gives = { λ b e. e ≡ Broken b };

    fn from(place: Break) -> Failure {
        Failure::Broken(place)
    }
}

impl From<Refusal> for Failure {
    ghost from_gives = { λ r e. e ≡ Refused r };

    fn from(refusal: Refusal) -> Failure {
        Failure::Refused(refusal)
    }
}
