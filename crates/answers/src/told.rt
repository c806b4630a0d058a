// What a call says, told as an answer: a value by 0 and what it carries, a refusal by its number.
#![tactic(auto, unfolding(format::specs::Answer::numbers, format::specs::Results::outcome_of))]

ghost use Rattle.std.specs.Prelude.{◌≡◌, ℕ, List, ◌∷◌};
ghost use Rattle.format.specs.Answer.{Refusal, refusal_numbers, numbers};
ghost use Rattle.format.specs.Results.{outcome};
ghost use Rattle.answers.specs.Answers.{answer_numbers};

use crate::Answer;

// A value that a call gives, and what it carries.
pub trait Carries: Sized {
    ghost carries: { Self → List ℕ };

    fn answer(self) -> Answer
        ensures { answer_numbers result ≡ 0 ∷ carries self };
}

// Why a call refuses.
pub trait Refuses: Sized {
    ghost why: { Self → Refusal };

    fn answer(self) -> Answer
        ensures { answer_numbers result ≡ refusal_numbers (why self) };
}

impl<T: Carries, E: Refuses> From<Result<T, E>> for Answer {
    ghost from_gives = { λ said told. answer_numbers told ≡ numbers T.carries (outcome E.why said) };

    fn from(said: Result<T, E>) -> Answer {
        match said {
            Ok(value) => value.answer(),
            Err(why) => why.answer(),
        }
    }
}
