// The correction of a plate: each reading plus its signed correction, or a refusal that changes nothing
// (document 01, section 1).
//
// faults.rt walks over readings and corrections and finds the first bad one of either kind (document 02, N4);
// fill.rt makes the levels, once there is none. What a corrected level and a bad reading are is defined with the
// rest of document 01, in the crate plate.
#![tactic(auto)]

ghost use Rattle.std.specs.Prelude.{◌≡◌, length};
ghost use Rattle.plate.specs.Levels.{corrected_plate};
ghost use Rattle.plate.specs.Refusals.{correction_verdict};
ghost use Rattle.plate.specs.Answers.{answered, result_after};

mod faults;
mod fill;

use crate::fill::fill;
pub use faults::{Faults, MAX_CORRECTION, MAX_READING, MIN_CORRECTION, find_faults};
use plate::{Reason, Refusal};

// Fills result with the corrected levels. All readings are judged before any correction, and both
// before the first store.
pub fn correct(
    width: usize,
    height: usize,
    readings: &[u16],
    words: &[u16],
    res: &mut [i16],
) -> Result<(), Refusal>
    ensures result_value { answered result ≡ correction_verdict width height readings.now words.now (length res.old) }
    ensures res_after { res.new ≡ result_after result (corrected_plate readings.now words.now) res.old }
{
    Reason::Size.refuse_if(plate::bad_size(width, height))?;
    let pixels = width * height;
    Reason::Input.refuse_if(readings.len() != pixels)?;
    Reason::Input.refuse_if(words.len() != pixels)?;
    Reason::Result.refuse_if(res.len() != pixels)?;
    let faults = find_faults(readings, words);
    Reason::Reading.refuse_at(faults.reading)?;
    Reason::Correction.refuse_at(faults.correction)?;
    fill(readings, words, res);
    Ok(())
}
