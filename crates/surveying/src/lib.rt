// The survey (document 01, section 6) as one function from text to text: reading, correction, setting,
// filter, trace and printing in one call. The crate survey_text reads; the answer's lines are written
// here (printing.rt, over writing.rt; traced.rt for the trace's).
//
// specs/Surveying.antt says what it answers, by survey_text's definition of the answer and theory's of
// what a trace shows.
#![tactic(auto)]

ghost use Rattle.std.specs.Prelude.{◌≡◌, ◌+◌, ◌≤◌, length};
ghost use Rattle.plate.specs.Limits.{max_length};
ghost use Rattle.survey_text.specs.Reading.{max_plate};
ghost use Rattle.surveying.specs.Surveying.{max_output, Surveyed};
ghost use Rattle.surveying.specs.Steps.{max_work, asked, Ready, SurveyWritten};

use crate::printing::{print_plate, print_refusal};
use crate::traced::write_trace;
use crate::writing::Writer;
use plate::Setting;
use survey_text::{Header, MAX_PLATE};

mod printing;
mod traced;
mod writing;

// No answer is longer, in bytes.
pub const MAX_OUTPUT: usize = 16384;

// Four sets of nine planes of the largest plate.
const MAX_WORK: usize = 18432;

// Writes the answer to a text at the front of out, and answers how many bytes it is.
pub fn survey(text: &[u8], out: &mut [u8; MAX_OUTPUT]) -> usize
    ensures { Surveyed text.now out.old out.new result }
{
    let mut levels = [0i16; MAX_PLATE];
    let got = survey_text::request(text, &mut levels);
    let mut w = Writer { out, at: 0 };
    match got {
        Ok(head) => answer(head, &levels[..head.width * head.height], &mut w),
        Err(refusal) => print_refusal(refusal, &mut w),
    }
    w.at
}

// The answer to a survey that passed the checks of its text; the buffers are enough for every one.
fn answer(head: Header, levels: &[i16], w: &mut Writer)
    requires ready { Ready (asked head levels.now) }
    requires max_output_in_bounds { w.old.at + max_output ≤ length w.old.out.now }
    ensures { SurveyWritten (asked head levels.now) w.old w.new }
{
    let mut result = [0i16; MAX_PLATE];
    let mut path = path_buffer();
    let mut work = work_buffer();
    write_answer(head, levels, &mut result, &mut path, &mut work, w);
}

// What is in these two before their first use is free, so that their lengths are all that is said.
fn path_buffer() -> [usize; Setting::MAX_LENGTH]
    ensures { max_length ≡ length result }
{
    [0; Setting::MAX_LENGTH]
}

fn work_buffer() -> [u16; MAX_WORK]
    ensures { max_work ≡ length result }
{
    [0; MAX_WORK]
}

// The filtered plate, then the trace.
fn write_answer(
    head: Header,
    levels: &[i16],
    res: &mut [i16],
    path: &mut [usize],
    work: &mut [u16],
    w: &mut Writer,
)
    requires ready { Ready (asked head levels.now) }
    requires max_plate_in_bounds { max_plate ≤ length res.old }
    requires max_length_in_bounds { max_length ≤ length path.old }
    requires max_work_in_bounds { max_work ≤ length work.old }
    requires max_output_in_bounds { w.old.at + max_output ≤ length w.old.out.now }
    ensures { SurveyWritten (asked head levels.now) w.old w.new }
{
    let res = &mut res[..head.width * head.height];
    // Never refused: the text's checks are the filter's, and the buffers are long enough.
    let _ = engine::filter(head.width, head.height, levels, head.setting, res, work);
    print_plate(head.width, head.height, res, w);
    write_trace(head, levels, path, work, w);
}
