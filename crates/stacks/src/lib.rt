// Stacks: earlier states of a sweep are kept, so that others can be made again. stack.rt says which, and makes
// them; doors.rt judges what is handed in. The crate knows no plate: its contracts speak of any numbers that
// obey the recursion.
#![tactic(auto)]

mod doors;
mod stack;
mod taken;

pub use doors::{at_once, fetch, top_of};
pub use stack::{Stack, last_mark, places_in};
