// The lamp meter's figures as a correction word (document 02, N6).
//
// The add-on stands by itself: of the other crates it uses `plate` alone, for the word, the refusal and the
// definition of the correction that takes the word, and none of them uses it. Means and difference are taken in
// f32, and each is proved to be exact; the definitions do the same sum in whole eighths over the integers.
#![tactic(auto)]

ghost use Rattle.std.specs.Prelude.{◌≡◌};
ghost use Rattle.plate.specs.Answers.{told};
ghost use Rattle.meter.specs.Corrections.{meter_verdict};

mod difference;
mod figure;
mod numbers;
mod rounding;

use crate::difference::Means;
pub use figure::Figure;
use plate::{Reason, Refusal};

// A figure with a number that may not be reported.
const BAD: Refusal = Refusal {
    reason: Reason::Figure,
    place: 0,
};

// What the meter reports.
#[derive(Clone, Copy)]
pub struct Meter {
    pub lamp: Figure,
    pub dark: Figure,
}

impl Meter {
    // Dark less lamp, rounded to a whole level, as a word in two's complement; 19 where a number may not be
    // reported.
    pub fn correction(self) -> Result<u16, Refusal>
        ensures { told result ≡ meter_verdict self }
    {
        let means = Means {
            lamp: self.lamp.resolved().ok_or(BAD)?,
            dark: self.dark.resolved().ok_or(BAD)?,
        };
        Ok(rounding::word_of(rounding::rounded(means.difference())))
    }
}
