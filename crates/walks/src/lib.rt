// Walks: what a trace reads off the states that stand in its work buffer.
//
// Its walks start at the picked pixel, so it is where they end that a path's ends are asked for (ended.rt).
// The best numbers of a state are noted by steps and gaps (notes.rt), and the notes of both sides tell the
// best path through the pixel (found.rt). The far end of a half is the first pixel where its walks count
// (far_end.rt), and from a stand (stand.rt) a step leads to a pixel nearer by (step.rt). doors.rt judges what
// is handed in. The crate knows no plate: its contracts speak of any numbers in the buffer.
#![tactic(auto)]

mod doors;
mod ended;
mod far_end;
mod found;
mod notes;
mod stand;
mod step;

pub use doors::{find_end, nearer, note_state, search};
pub use found::{Found, Paths};
pub use stand::Stand;
pub use step::gaps_after;
