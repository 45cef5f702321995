// An answer about the cluster properties in four words: the broken property's number or 0, the plant, the index and the test; or a
// refusal's number, with the words as they came.
#![tactic(auto)]

ghost use Rattle.std.specs.Prelude.{◌≡◌};
ghost use Rattle.properties_told.specs.Told.{answer_number, answer_told};

use properties_verdicts::Failure;

// The words of an answer.
pub const ANSWER_WORDS: usize = 4;

// What a call answers, written to its four words.
// Kept: the C interface tells a refusal by its number (bellmantle_properties_*), here and in the function below.
pub fn tell(answer: Result<(), Failure>, told: &mut [u64; ANSWER_WORDS]) -> u64
    ensures answer { result ≡ answer_number answer }
    ensures told { told.new ≡ answer_told answer told.old }
{
    match answer {
        Ok(()) => {
            *told = [0; ANSWER_WORDS];
            0
        }
        Err(Failure::Broken(place)) => {
            *told = [
                place.property.number(),
                place.plant as u64,
                place.index as u64,
                place.test,
            ];
            0
        }
        Err(Failure::Refused(refusal)) => refusal.number(),
    }
}

// What a call answers that has nothing to tell.
pub fn number(answer: Result<(), Failure>) -> u64
    ensures { result ≡ answer_number answer }
{
    match answer {
        Err(Failure::Refused(refusal)) => refusal.number(),
        Ok(()) | Err(Failure::Broken(_)) => 0,
    }
}
