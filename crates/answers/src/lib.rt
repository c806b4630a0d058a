// Answers as document 01's numbers: how what each layer says is numbered, once for all that tell answers.
#![tactic(auto)]

mod answer;
mod lent;
mod loads;
mod lookups;
mod readers;
mod told;

pub use answer::Answer;
pub use lent::{put, tell};
pub use told::{Carries, Refuses};
