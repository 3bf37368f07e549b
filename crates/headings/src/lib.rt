// Headings: a direction of the table as it is walked from a pixel, on a plate of some size.
//
// usable.rt tells which directions are chosen and have paths that are long enough; heading.rt how far a pixel
// stands along a direction, how many steps lead on from it, and where a step leads; onward.rt writes a path
// that needs no more than room, by the indices of trail.rt. doors.rt judges what is handed in. The crate knows
// sizes and places, and no levels.
#![tactic(auto)]

mod doors;
mod heading;
mod onward;
mod trail;
mod usable;

pub use doors::{follow_any, rank_of};
pub use trail::index_after;
pub use usable::{bit_of, first_usable, is_usable};
