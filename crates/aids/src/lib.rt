// Search aids over a table with a count for every row of the largest bank: marks of the rows that have one, and upper bounds. Each may be stale on one
// side: a mark too many, a bound too high. An internal layer: its callers keep marks and bounds as `Marked` and `Capped` say.
#![tactic(auto)]

mod bounds;
mod marks;

pub use bounds::{cover, top_row};
pub use marks::{clear, clear_marks, enter, first_at, remove};
