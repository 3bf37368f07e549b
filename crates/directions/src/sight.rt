// One side of a direction, as it is seen from one pixel: the states of the walks that start there.
ghost use Rattle.std.specs.Prelude.{◌≡◌};
ghost use Rattle.directions.specs.Doors.{sight_of};

use crate::fits::fits_plate;
use crate::frame::Way;
use crate::plan::{Course, Side};
use frames::Frame;
use plans::Plan;
use plate::Setting;

// The states are numbered from the pixel on; `states` is how many there are.
#[derive(Clone, Copy)]
pub struct Sight {
    pub frame: Frame,
    pub plan: Plan,
    pub states: usize,
}

// The walks on from the pixel at a place, or back from it; none where the numbers do not fit. A number tells
// the best walk from there to a pixel, and is made of the numbers one step nearer: so walks on are swept by
// the steps back, and walks back by those on.
pub fn sight_of(
    width: usize,
    height: usize,
    setting: Setting,
    index: usize,
    backwards: bool,
    at: usize,
) -> Option<Sight>
    ensures { result ≡ sight_of width height setting index backwards at }
{
    let way = Way {
        width,
        height,
        index,
    };
    if !fits_plate(way, setting) {
        return None;
    }
    if at >= width * height {
        return None;
    }
    let frame = way.frame();
    let spot = way.spot_of(at);
    let back = !backwards;
    let course = Course {
        index: way.index,
        rows: way.by_rows(),
        back,
    };
    let side = Side { frame, course };
    let plan = side.trace_plan(setting.length, setting.gaps + 1, spot);
    let states = side.trace_states(setting.length, spot);
    Some(Sight {
        frame,
        plan,
        states,
    })
}
