// An answer made flat for C.
ghost use Rattle.std.specs.Prelude.{◌≡◌};
ghost use Rattle.model.specs.Answer.{refusal_in};
ghost use Rattle.unit.specs.Face as face;

use crate::face::Told;
use model::{Answer, Outcome};

// The number of an outcome, in the paper's order: an enum does not go through a door of C.
pub fn outcome_of(outcome: Outcome) -> usize
    ensures { result ≡ face.outcome_in outcome }
{
    match outcome {
        Outcome::Found => 1,
        Outcome::Absent => 2,
        Outcome::Done => 3,
        Outcome::Refused(_) => 4,
    }
}

// The refusal's number, 0 where nothing was refused, as C gets it.
pub fn refusal_of(outcome: Outcome) -> usize
    ensures { result ≡ refusal_in outcome }
{
    match outcome {
        Outcome::Refused(why) => usize::from(why),
        Outcome::Found | Outcome::Absent | Outcome::Done => 0,
    }
}

impl From<Answer> for Told {
    ghost from_gives = { λ answer told. told ≡ face.told answer };

    fn from(answer: Answer) -> Told {
        Told {
            outcome: outcome_of(answer.outcome),
            refusal: refusal_of(answer.outcome),
            head: answer.head,
            entry: answer.entry,
            slot: answer.slot,
            reads: answer.reads,
            distance: answer.distance,
            count: answer.count,
            bytes: answer.bytes,
            line: answer.line,
            place: answer.place,
        }
    }
}
