// The best walks of one side from the picked pixel, noted for every number of steps and of gaps.
ghost use Rattle.std.specs.Prelude.{List, ◌+◌, ◌*◌, ◌≤◌, ◌<◌, length, ℤ};
ghost use Rattle.tracing.specs.Scans.{KeysLaid};
ghost use Rattle.tracing.specs.Finding.{NotedSide};

use crate::scan::Scan;
use crate::sight::sight_of;
use crate::taken::{advance, note_state};
use plans::Followed;

// The notes of one side: for each number of steps up to those of a path the numbers of all
// gaps; 0 where there is no such walk. The keys of the plate, whichever it is, are laid already, and stay:
// the states stand behind them.
pub(crate) fn note_side(notes: &mut [u16], work: &mut [u16], scan: Scan, backwards: bool, x: usize)
    requires x_bound { (x < scan.width * scan.height) × (4 * (scan.setting.gaps + 1) * (scan.width * scan.height) ≤ length work.old) }
    requires gaps_in_bounds { ((scan.steps + 1) * (scan.setting.gaps + 1) ≤ length notes.old) × (length notes.old < 65536) }
    ensures { (plate : List ℤ) → KeysLaid scan plate work.old → NotedSide scan backwards plate x work.new notes.new }
{
    let mut held = [0u16; 18720];
    let sight = sight_of(scan, backwards, x);
    let followed = Followed { plan: sight.plan };
    let base = followed.keys_size();
    notes.fill(0);
    for e in 0..sight.states {
        advance(work, &mut held, followed, e, base);
        note_state(notes, work, base, followed, e, scan.slack);
    }
}
