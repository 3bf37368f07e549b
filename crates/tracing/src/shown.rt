// The path that is shown, once every check has passed.
ghost use Rattle.std.specs.Prelude.{◌≡◌, Some, length};
ghost use Rattle.plate.specs.Opening.{level_at, filtered};
ghost use Rattle.plate.specs.Refusals.{Clear, trace_checks};
ghost use Rattle.theory.specs.Trace.{Shows};
ghost use Rattle.headings.specs.Usable.{FirstUsable};

use crate::draw::draw;
use crate::find::Asked;
use crate::scan::Scan;
use headings::bit_of;
use plate::Trace;

// Finds the best path through the pixel and draws it.
pub(crate) fn find_and_draw(
    asked: &Asked,
    first: usize,
    path: &mut [usize],
    work: &mut [u16],
) -> Trace
    requires clear { Clear (trace_checks asked.now.width asked.now.height asked.now.setting (length asked.now.plate.now) asked.now.x (length path.old) (length work.old)) }
    requires first_usable { FirstUsable asked.now.width asked.now.height asked.now.setting (Some first) }
    ensures level { result.level ≡ level_at (filtered asked.now.setting asked.now.width asked.now.height asked.now.plate.now) asked.now.x }
    ensures shows { Shows asked.now.setting asked.now.width asked.now.height asked.now.plate.now asked.now.x result.direction result.level path.new }
{
    let found = asked.find(work, first);
    let scan = Scan::new(asked.width, asked.height, asked.setting, found.index);
    draw(path, work, asked.plate, scan, found, asked.x);
    Trace {
        direction: bit_of(found.index),
        level: frames::level_by(asked.setting.mode, found.key),
    }
}
