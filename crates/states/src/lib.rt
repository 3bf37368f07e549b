// States of rows, one state further: the loops in which the engine spends its time.
//
// A number tells the best walk at a pixel (formula (4) of source 001, taken on grey levels). A row has
// `planes` numbers for each of its pixels, one for every number of gaps. A row is made of three rows
// beside it (the crate plans says which):
//
//     new_j(x) = max( min( key(x), M_j(x) ), M_{j-1}(x) )      M_{-1} = 0
//     M_j(x)   = the greatest of three numbers of plane j in the rows beside
//
// Rows are made eight pixels at a time (blends.rt) and come in and go out by runs (runs.rt): one loop each,
// with no branch on the numbers, so that they are compiled to vector instructions. They are made among held
// ones (rows.rt), each with a zero before and after it, so that no edge is a case of its own. States are made
// of the one before, several at once, row after row (state.rt), where the numbers that are handed in fit
// (doors.rt). The crate knows no plate: its contracts speak of any numbers that obey the recursion.
#![tactic(auto)]

mod blends;
mod doors;
mod rows;
mod runs;
mod state;

pub use doors::{advance, advance_joined, can_hold, lies_in, state_fits};
pub use state::Stretch;
