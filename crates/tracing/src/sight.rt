// One side of a direction, as it is seen from the picked pixel, and the keys that its states read: the doors
// of `directions`, by the scan.
ghost use Rattle.std.specs.Prelude.{◌≡◌, ◌+◌, ◌*◌, ◌≤◌, ◌<◌, length};
ghost use Rattle.tracing.specs.Scans.{KeysLaid};
ghost use Rattle.tracing.specs.Sights.{Seen};

use crate::scan::Scan;
use directions::Sight;

// The walks on from the pixel at x, or back from it: there is such a side, since a scan's numbers fit.
pub(crate) fn sight_of(scan: Scan, backwards: bool, x: usize) -> Sight
    requires { x < scan.width * scan.height }
    ensures { Seen scan backwards x result }
{
    directions::sight_of(
        scan.width,
        scan.height,
        scan.setting,
        scan.index,
        backwards,
        x,
    )
    .unwrap()
}

// The keys of the plate, for both sides: whether they are laid by lines or by ranks is the same from every
// pixel, so the first one is asked.
pub(crate) fn lay_keys(work: &mut [u16], plate: &[i16], scan: Scan)
    requires { (length plate.now ≡ scan.width * scan.height) × (4 * (scan.setting.gaps + 1) * (scan.width * scan.height) ≤ length work.old) }
    ensures { KeysLaid scan plate.now work.new }
{
    let sight = sight_of(scan, true, 0);
    directions::lay_keys(
        work,
        plate,
        scan.width,
        scan.height,
        scan.index,
        sight.plan.ranked,
        scan.setting.mode,
    );
}
