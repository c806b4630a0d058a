// A blob into three lent tables: the survey writes nothing, then the room is judged, and only then the rows are written.
#![tactic(auto)]

mod loading;
mod reserve;
mod table;
mod write;

pub use loading::{load, measure};
