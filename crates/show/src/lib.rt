// What is shown of a blob and the rows that a load wrote: bytes that are not our own, values as .dts text, and the fields of rows.
#![tactic(auto)]

mod chunk;
pub mod escape;
pub mod fields;
#[cfg(test)]
mod tests;
pub mod value;
