// An answer of inference as numbers, for the C interface.
ghost use Rattle.std.specs.Prelude.{◌≡◌};
ghost use Rattle.runner.specs.Answers.{told};

use runner::{Answer, Refusal, Verdict};
use types::Place;

#[derive(Clone, Copy)]
pub struct Told {
    pub number: u32,
    pub place: u64,
    pub length: u64,
    pub steps: u64,
}

#[tactic(auto, unfolding(runner::specs::Answers::told, runner::specs::Answers::number_of))]
pub fn tell(answer: Answer) -> Told
    ensures number_value { result.number ≡ (told answer).number }
    ensures place_value { result.place ≡ (told answer).place }
    ensures length_value { result.length ≡ (told answer).size }
    ensures steps_value { result.steps ≡ (told answer).steps }
{
    match answer {
        Ok(outcome) => Told {
            number: match outcome.verdict {
                Verdict::Typed => 0,
                Verdict::Problems => 1,
            },
            place: 0,
            length: outcome.length as u64,
            steps: outcome.steps,
        },
        Err(refusal) => {
            let (number, place) = match refusal {
                Refusal::Oversized => (2, Place(0)),
                Refusal::BadEnvironment(place) => (3, place),
                Refusal::BadFormula(place) => (4, place),
                Refusal::Beyond(place) => (5, place),
                Refusal::Full => (6, Place(0)),
                Refusal::Spent => (7, Place(0)),
                Refusal::NoRoom => (8, Place(0)),
            };
            Told {
                number,
                place: u64::from(place.0),
                length: 0,
                steps: 0,
            }
        }
    }
}
