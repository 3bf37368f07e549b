// Printing the answer's lines.
ghost use Rattle.std.specs.Prelude.{◌≡◌, ◌*◌, ◌<◌, length};
ghost use mathlib.Core.List.{flat_map};
ghost use Rattle.plate.specs.Answers.{number_by};
ghost use Rattle.survey_text.specs.Printing.{rows, out_line, out_text, trace_text, refusal_text};
ghost use Rattle.surveying.specs.Buffers.{Room, Written};

use crate::writing::Writer;
use plate::{Refusal, Trace};

// One `out=` line a row.
fn out_lines(width: usize, height: usize, levels: &[i16], w: &mut Writer)
    requires wide { 0 < width }
    requires levels_len { length levels.now ≡ height * width }
    requires room { Room (flat_map out_line (rows width height levels.now)) w.old }
    ensures { Written (flat_map out_line (rows width height levels.now)) w.old w.new }
{
    for row in levels.chunks_exact(width) {
        w.line(b"out=", row);
    }
}

// The size, and the filtered levels row by row.
pub(crate) fn print_plate(width: usize, height: usize, levels: &[i16], w: &mut Writer)
    requires wide { 0 < width }
    requires levels_len { length levels.now ≡ height * width }
    requires room { Room (out_text width height levels.now) w.old }
    ensures { Written (out_text width height levels.now) w.old w.new }
{
    w.line(b"width=", width);
    w.line(b"height=", height);
    out_lines(width, height, levels, w);
}

// The way bit, the level and the places of a trace.
pub(crate) fn print_trace(trace: Trace, path: &[usize], w: &mut Writer)
    requires { Room (trace_text trace.direction trace.level path.now) w.old }
    ensures { Written (trace_text trace.direction trace.level path.now) w.old w.new }
{
    w.line(b"way=", trace.direction);
    w.line(b"level=", trace.level);
    w.line(b"path=", path);
}

// The two lines of a refusal.
pub(crate) fn print_refusal(refusal: Refusal, w: &mut Writer)
    requires { Room (refusal_text (number_by refusal.reason) refusal.place) w.old }
    ensures { Written (refusal_text (number_by refusal.reason) refusal.place) w.old w.new }
{
    w.line(b"refused=", refusal.number());
    w.line(b"place=", refusal.place);
}
