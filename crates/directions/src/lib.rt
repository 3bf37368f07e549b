// A direction of the step table, swept: where its lines lie on the plate, which states its walks have, and
// the result that rises to the best walk through each pixel.
//
// frame.rt turns every direction into a straight or a diagonal one. plan.rt chooses the states: windows of
// lines for a straight direction, whose states need each other not at all; single lines or ranks for a
// diagonal one, whichever takes less room. keys.rt lays the plate's keys out row after row, in the places that
// kept.rt tells, gather.rt brings the best numbers back to the plate, direction.rt does all of it; sight.rt is
// the side of a direction that a trace sees from one pixel. Each door judges its numbers first (fits.rt).
#![tactic(auto)]

mod direction;
mod fits;
mod frame;
mod gather;
mod kept;
mod keys;
mod plan;
mod sight;

pub use direction::open_direction;
pub use frame::Spot;
pub use keys::{lay_keys, place_kept};
pub use plan::{Area, Course};
pub use sight::{Sight, sight_of};
