// Sweeps: all states of both sides of a direction, joined. sweeping.rt makes and joins them, doors.rt judges what
// is handed in. The crate knows no plate: its contracts speak of any numbers that obey the recursion.
#![tactic(auto)]

mod doors;
mod sweeping;
mod taken;

pub use doors::sweep;
