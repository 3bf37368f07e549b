// How a direction lies on a plate: its steps as they are read off the table (steps.rt), its lines (frame.rt),
// and the order of the levels by the mode (keys.rt).
#![tactic(auto)]

mod frame;
mod keys;
mod steps;

pub use frame::Frame;
pub use keys::{key_by, level_by};
pub use steps::{columns_on, rows_on};
