// The path that was found, drawn into the path buffer.
ghost use Rattle.std.specs.Prelude.{◌≡◌, ◌+◌, ◌*◌, ◌≤◌, length};
ghost use Rattle.tracing.specs.Scans.{bit_of, key_of};
ghost use Rattle.tracing.specs.Finding.{Attained};
ghost use Rattle.tracing.specs.Drawing.{Drawn};

use crate::follow::{Walk, follow};
use crate::scan::Scan;
use crate::sight::lay_keys;
use walks::Found;

// The pixel x, the walk on from it and the walk back. The keys are laid once for both.
pub(crate) fn draw(
    path: &mut [usize],
    work: &mut [u16],
    plate: &[i16],
    scan: Scan,
    found: Found,
    x: usize,
)
    requires plate_len { (length plate.now ≡ scan.width * scan.height) × (4 * (scan.setting.gaps + 1) * (scan.width * scan.height) ≤ length work.old) × (length path.old ≡ scan.steps + 1) }
    requires attained { Attained scan.slack scan.width scan.height scan.steps scan.setting.gaps scan.spare (key_of scan plate.now) x (bit_of scan) found.key found.before found.gaps }
    ensures { Drawn scan.slack scan.width scan.height (bit_of scan) (key_of scan plate.now) found.key scan.steps scan.setting.gaps x path.new }
{
    let start = found.before;
    path[start] = x;
    lay_keys(work, plate, scan);
    let on = Walk {
        key: found.key,
        start,
        steps: scan.steps - start,
        gaps: scan.setting.gaps - found.gaps,
        backwards: false,
    };
    follow(path, work, plate, scan, on);
    let back = Walk {
        steps: start,
        gaps: found.gaps,
        backwards: true,
        ..on
    };
    follow(path, work, plate, scan, back);
}
