// A whole direction of the filter.
ghost use Rattle.std.specs.Prelude.{◌≡◌, true, ◌-◌, ◌*◌, length};
ghost use Rattle.basics.specs.Cases.{EitherBy};
ghost use Rattle.theory.specs.BestWalks.{gap_end};
ghost use Rattle.directions.specs.Gathering.{Raised, best_of};
ghost use Rattle.directions.specs.Doors.{opens};

use crate::fits::opens_plate;
use crate::frame::Way;
use crate::gather::raise;
use crate::kept::Kept;
use crate::keys::fill_keys;
use crate::plan::{Course, Side};
use plate::Setting;

// Raises each level of the result to the best walk of the direction through its pixel. The best
// numbers of the plate's pixels take 128 KB of stack, and the sweep 51 KB.
fn raise_all(res: &mut [i16], work: &mut [u16], plate: &[i16], way: Way, setting: Setting)
    requires { opens way.width way.height setting way.index (length plate.now) (length res.old) (length work.old) ≡ true }
    ensures { Raised (best_of (gap_end setting.ends) way.width way.height way.index setting.mode (setting.length - 1) setting.gaps plate.now) res.old res.new 0 (way.width * way.height) }
{
    let frame = way.frame();
    let course = Course {
        index: way.index,
        rows: way.by_rows(),
        back: false,
    };
    let on = Side { frame, course };
    let back = Side {
        frame,
        course: Course {
            back: true,
            ..course
        },
    };
    let plan = on.filter_plan(setting.length, setting.gaps + 1, setting.ends);
    let reach = back.reach_of(plan.ranked);
    let kept = Kept {
        frame,
        ranked: plan.ranked,
    };
    let mut best = [0u16; 65536];
    fill_keys(work, plate, kept, setting.mode);
    sweeps::sweep(&mut best, work, plan, reach);
    raise(res, &best, kept);
}

// The same, and true, where the plate has paths of the setting's length in the direction at this index and
// the lent buffers have the lengths that are asked; else false, and nothing is written.
pub fn open_direction(
    res: &mut [i16],
    work: &mut [u16],
    plate: &[i16],
    width: usize,
    height: usize,
    setting: Setting,
    index: usize,
) -> bool
    ensures value { result ≡ opens width height setting index (length plate.now) (length res.old) (length work.old) }
    ensures either { EitherBy result (Raised (best_of (gap_end setting.ends) width height index setting.mode (setting.length - 1) setting.gaps plate.now) res.old res.new 0 (width * height)) ((res.new ≡ res.old) × (work.new ≡ work.old)) }
{
    let way = Way {
        width,
        height,
        index,
    };
    if !opens_plate(way, setting, plate.len(), res.len(), work.len()) {
        return false;
    }
    raise_all(res, work, plate, way, setting);
    true
}
