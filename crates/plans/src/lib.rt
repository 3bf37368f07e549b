// Plans of sweeps: which rows the states of a sweep have, which pixels and keys a row has, and where a step
// finds the numbers that it leads on. The crate knows no plate.
#![tactic(auto)]

mod ends;
mod followed;
mod form;
mod plan;

pub use ends::{MAX_KEY, gap_end};
pub use followed::Followed;
pub use form::is_well_formed;
pub use plan::{MARGIN, Plan, Reach, Row, row_of, rows_in};
