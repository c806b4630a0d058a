// Why a lookup finds nothing, and why a value is not read.
#![tactic(auto, unfolding(format::specs::Answer::refusal_numbers, lookup::specs::Answers::why_of, values::specs::Answers::why_of))]

ghost use Rattle.lookup.specs.Answers.{why_of};
ghost use Rattle.values.specs.Answers as values;

use crate::{Answer, Refuses};
use lookup::LookupError;
use values::PropError;

impl Refuses for LookupError {
    ghost why = { why_of };

    fn answer(self) -> Answer {
        match self {
            LookupError::NotFound => Answer::alone(11),
            LookupError::Unusable => Answer::alone(15),
        }
    }
}

impl Refuses for PropError {
    ghost why = { values.why_of };

    fn answer(self) -> Answer {
        match self {
            PropError::NotFound => Answer::alone(11),
            PropError::Utf8Error => Answer::alone(5),
            PropError::Missing0 => Answer::alone(12),
            PropError::Short => Answer::alone(13),
            PropError::Unusable => Answer::alone(15),
        }
    }
}
