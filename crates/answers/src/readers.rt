// What the readers and the UTF-8 check say.
#![tactic(auto, unfolding(format::specs::Answer::nothing, format::specs::Answer::itself, format::specs::Answer::place, format::specs::Answer::refusal_numbers, reader::specs::Outcomes::tells, reader::specs::Outcomes::why_of, utf8::specs::Outcomes::why_of, crate::specs::Carried::part))]

ghost use Rattle.format.specs.Answer.{itself, nothing};
ghost use Rattle.reader.specs.Outcomes.{why_of};
ghost use Rattle.utf8.specs.Outcomes as utf8;
ghost use Rattle.answers.specs.Carried.{part};

use crate::{Answer, Carries, Refuses};
use reader::{SliceReadError, Span};
use utf8::Utf8Error;

impl Carries for () {
    ghost carries = { nothing };

    fn answer(self) -> Answer {
        Answer::alone(0)
    }
}

// A number, of each width alone: std turns no usize into a u64 by `Into`, so no one impl would take all three.
impl Carries for u32 {
    ghost carries = { itself };

    fn answer(self) -> Answer {
        Answer::with(0, u64::from(self))
    }
}

impl Carries for u64 {
    ghost carries = { itself };

    fn answer(self) -> Answer {
        Answer::with(0, self)
    }
}

impl Carries for usize {
    ghost carries = { itself };

    fn answer(self) -> Answer {
        Answer::with(0, self as u64)
    }
}

impl Carries for Span {
    ghost carries = { part };

    fn answer(self) -> Answer {
        Answer::of([0, self.start as u64, self.len as u64])
    }
}

impl Refuses for SliceReadError {
    ghost why = { why_of };

    fn answer(self) -> Answer {
        match self {
            SliceReadError::UnexpectedEndOfInput => Answer::alone(3),
        }
    }
}

impl Refuses for Utf8Error {
    ghost why = { utf8.why_of };

    fn answer(self) -> Answer {
        Answer::alone(5)
    }
}
