// The trace: one path through a picked pixel, as section 4 of document 01 has it.
//
// By the span law the sizes alone tell whether there is a path. The filter's states, with walks that start
// at the picked pixel alone (sight.rt), then give for every number of steps and gaps the best walk on from
// it and back (notes.rt), as far as a path may end where it does; the two halves that fit best tell the
// level (find.rt). Each half of the path is followed from its far end to the pixel (follow.rt), each next
// pixel one whose number is at least the level. On a straight direction one state of a side holds all of its
// walks; on a diagonal one they are made again from a stack of states.
//
// What is read off a state is told by the crate walks, and what needs sizes and places alone by headings.
#![tactic(auto)]

ghost use Rattle.std.specs.Prelude.{◌≡◌, length};
ghost use Rattle.plate.specs.Refusals.{trace_verdict};
ghost use Rattle.plate.specs.Answers.{traced_level, TraceAfter};
ghost use Rattle.theory.specs.Trace.{Shows};

mod checks;
mod draw;
mod find;
mod follow;
mod notes;
mod scan;
mod shown;
mod sight;
mod taken;

use crate::checks::first_direction;
use crate::find::Asked;
use crate::shown::find_and_draw;
pub use checks::judge_trace;
use plate::{Refusal, Setting, Trace};

// Writes the places of a path through the pixel at a place, in walking order, into the path buffer, and
// returns the bit of its direction (document 01: way) and the pixel's filtered level; or refuses (1 to 8,
// 18, 11, 12) and changes nothing.
pub fn trace(
    width: usize,
    height: usize,
    plate: &[i16],
    setting: Setting,
    at: usize,
    path: &mut [usize],
    work: &mut [u16],
) -> Result<Trace, Refusal>
    ensures result_value { traced_level result ≡ trace_verdict width height setting plate.now at (length path.old) (length work.old) }
    ensures trace_after { TraceAfter result (Shows setting width height plate.now at) path.old path.new work.old work.new }
{
    let first = first_direction(
        width,
        height,
        setting,
        at,
        plate.len(),
        path.len(),
        work.len(),
    )?;
    let asked = Asked {
        width,
        height,
        plate,
        setting,
        x: at,
    };
    Ok(find_and_draw(&asked, first, path, work))
}
