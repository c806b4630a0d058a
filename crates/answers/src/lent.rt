// An answer's numbers, put into a lent slice from its start, as many as it has room for; what follows them stays as it was.
ghost use Rattle.std.specs.Prelude.{◌≡◌, set};
ghost use Rattle.std.proofs.lemmas.List.Edits.{sets};
ghost use Rattle.format.specs.Answer.{numbers};
ghost use Rattle.format.specs.Results.{outcome};
ghost use Rattle.answers.specs.Answers.{Put};

use crate::{Answer, Carries, Refuses};

// A number at its place, where there is one.
#[tactic(auto, using(crate::proofs::Puts::no_place))]
fn put_one(answer: &mut [u64], at: usize, n: u64)
    ensures { answer.new ≡ set answer.old at n }
{
    if at < answer.len() {
        answer[at] = n;
    }
}

// All numbers of an answer. One by one: copied as a part they would be a call of `memcpy`, and the static library calls nothing.
#[tactic(auto, unfolding(crate::specs::Answers::Put))]
pub fn put(answer: &mut [u64], told: Answer)
    ensures { Put told answer.old answer.new }
{
    let numbers = told.numbers();
    for (at, n) in numbers.iter().enumerate() {
        put_one(answer, at, *n);
    }
}

// The same of what a call says.
#[tactic(auto, unfolding(crate::specs::Answers::Put))]
pub fn tell<T: Carries, E: Refuses>(answer: &mut [u64], said: Result<T, E>)
    ensures { answer.new ≡ sets answer.old 0 (numbers T.carries (outcome E.why said)) }
{
    put(answer, Answer::from(said));
}
