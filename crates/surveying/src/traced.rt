// The trace's lines of the answer: those of the path that was found, or those of its refusal.
ghost use Rattle.std.specs.Prelude.{◌≡◌, ◌+◌, ◌≤◌, length};
ghost use Rattle.plate.specs.Limits.{max_length};
ghost use Rattle.surveying.specs.Steps.{max_work, max_trace, asked, Ready, OnPlate, traced_text, WrittenShort, TraceWritten};

use crate::printing::{print_refusal, print_trace};
use crate::writing::Writer;
use plate::{Refusal, Trace};
use survey_text::Header;

// The trace's lines, or those of its refusal.
pub(crate) fn write_trace(
    head: Header,
    levels: &[i16],
    path: &mut [usize],
    work: &mut [u16],
    w: &mut Writer,
)
    requires ready { Ready (asked head levels.now) }
    requires max_length_in_bounds { max_length ≤ length path.old }
    requires max_work_in_bounds { max_work ≤ length work.old }
    requires max_trace_in_bounds { w.old.at + max_trace ≤ length w.old.out.now }
    ensures { TraceWritten (asked head levels.now) w.old w.new }
{
    let path = &mut path[..head.setting.length];
    let traced = tracing::trace(
        head.width,
        head.height,
        levels,
        head.setting,
        head.at,
        path,
        work,
    );
    write_traced(traced, path, w);
}

// What a trace answered, with the path that it left in its buffer.
fn write_traced(traced: Result<Trace, Refusal>, path: &[usize], w: &mut Writer)
    requires path_len_bound { length path.now ≤ max_length }
    requires on_plate { OnPlate traced path.now }
    requires max_trace_in_bounds { w.old.at + max_trace ≤ length w.old.out.now }
    ensures { WrittenShort (traced_text traced path.now) max_trace w.old w.new }
{
    match traced {
        Ok(trace) => print_trace(trace, path, w),
        Err(refusal) => print_refusal(refusal, w),
    }
}
