// What a text asks for: reading, then correction, then the setting. The filter and the trace come after.
ghost use Rattle.std.specs.Prelude.{◌≡◌, ◌*◌, ◌≤◌, length};
ghost use Rattle.survey_text.specs.Reading.{max_plate};
ghost use Rattle.survey_text.specs.Survey.{prepared, requested};
ghost use Rattle.survey_text.specs.Answers.{request_told, levels_after};
ghost use Rattle.survey_text.specs.Within.{with_lists, outcome};
ghost use Rattle.plate.specs.Answers.{answered};

use crate::reading::{Header, MAX_PLATE, read};
use plate::Refusal;

// The head of an accepted text, with the corrected levels at the front of the lent array; or the
// refusal of the first of the three that refuses, and the array is as it was.
pub fn request(s: &[u8], levels: &mut [i16; MAX_PLATE]) -> Result<Header, Refusal>
    ensures result_after { request_told levels.new result ≡ requested s.now }
    ensures levels_after { levels.new ≡ levels_after (requested s.now) levels.old }
{
    let mut readings = [0u16; MAX_PLATE];
    let mut words = [0u16; MAX_PLATE];
    let head = read(s, &mut readings, &mut words)?;
    let n = head.width * head.height;
    fill(head, &readings[..n], &words[..n], levels)
}

// Corrects into the front of levels what passed every check, and nothing else.
fn fill(
    head: Header,
    readings: &[u16],
    words: &[u16],
    levels: &mut [i16; MAX_PLATE],
) -> Result<Header, Refusal>
    requires { head.width * head.height ≤ max_plate }
    ensures result_after { request_told levels.new result ≡ prepared (with_lists head readings.now words.now) }
    ensures levels_after { levels.new ≡ levels_after (prepared (with_lists head readings.now words.now)) levels.old }
{
    let mut tried = [0i16; MAX_PLATE];
    judge(head, readings, words, &mut tried)?;
    let n = head.width * head.height;
    correction::correct(head.width, head.height, readings, words, &mut levels[..n])?;
    Ok(head)
}

// Whether the head's readings and words can be corrected and its setting is within the limits. The
// correction is tried in an array that is thrown away, since 9 and 10 come before 2 to 5 and 18; the caller
// lends it, so that an edit can lend the levels (must-fail/written_though_refused).
fn judge(
    head: Header,
    readings: &[u16],
    words: &[u16],
    tried: &mut [i16; MAX_PLATE],
) -> Result<(), Refusal>
    requires { head.width * head.height ≤ max_plate }
    ensures { answered result ≡ outcome (prepared (with_lists head readings.now words.now)) }
{
    let n = head.width * head.height;
    correction::correct(head.width, head.height, readings, words, &mut tried[..n])?;
    head.setting.checked()?;
    Ok(())
}
