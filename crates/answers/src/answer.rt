// What a call answers, as document 01's numbers.
#![tactic(auto, unfolding(crate::specs::Answers::answer_numbers))]

ghost use Rattle.std.specs.Prelude.{◌≡◌, ◌-◌, ◌<◌, ◌≤◌, ℕ, [], ◌∷◌, length, drop, replicate, get_or};
ghost use Rattle.answers.specs.declared.answer.TheConstants.{MOST};

// How many numbers the longest answer has.
pub(crate) const MOST: usize = 6;

// One number or more: the first `len` of these. Zeros stand past them, so that the numbers determine the answer.
#[derive(Clone, Copy, Debug, PartialEq, Eq)]
pub struct Answer {
    all: [u64; MOST],
    len: usize,
    ghost some: { 0 < len },
    ghost within: { len ≤ length all },
    ghost zeros: { drop len all ≡ replicate (MOST - len) 0 },
}

impl Answer {
    ghost use Rattle.answers.specs.Answers.{answer_numbers};

    // A number alone.
    pub fn alone(code: u64) -> Answer
        ensures { answer_numbers result ≡ code ∷ [] }
    {
        Answer::of([code])
    }

    // A number with what it carries.
    pub fn with(code: u64, n: u64) -> Answer
        ensures { answer_numbers result ≡ code ∷ n ∷ [] }
    {
        Answer::of([code, n])
    }

    // So many numbers.
    pub(crate) fn of<const N: usize>(numbers: [u64; N]) -> Answer
        requires some { 0 < N }
        requires within { N ≤ MOST }
        ensures { answer_numbers result ≡ numbers.entry }
    {
        let mut all = [0; MOST];
        all[..N].copy_from_slice(&numbers);
        Answer { all, len: N }
    }

    pub fn numbers(&self) -> &[u64]
        ensures { result.now ≡ answer_numbers self.now }
    {
        &self.all[..self.len]
    }

    // The first number, which says what the others are.
    pub fn code(&self) -> u64
        ensures { result ≡ get_or (answer_numbers self.now) 0 0 }
    {
        self.all[0]
    }
}
