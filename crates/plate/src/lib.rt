// The plate: what the engine works on, and its small parts.
//
// specs/ holds document 01's definitions, in its order: limits, levels, directions, paths, opening and
// closing, the refusal table. The functions here are the leaves: the step table and the walker, the
// setting, the arithmetic of levels, and the checks that calls have in common. Each answers on every input;
// none that is public has a `requires`.
#![tactic(auto)]

mod answer;
mod call;
mod level;
mod refusal;
mod setting;
mod size;
mod span;
mod steps;
mod walker;

pub use answer::Trace;
pub use call::{Fills, Lent, judge};
pub use level::{key_of, level_of, mirrored, signed_correction};
pub use refusal::{Reason, Refusal};
pub use setting::Setting;
pub use size::{MAX_PIXELS, MAX_SIDE, bad_size};
pub use span::span_of;
pub use steps::{DIRECTIONS, STEPS_EACH, column_change, index_of, row_change};
pub use walker::Walker;
