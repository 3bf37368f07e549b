// The lamp-meter add-on for C and Rust: a library of its own, apart from `diilvak`. include/diilvak_meter.h has
// the declarations for C, with all that a caller has to know.
#![tactic(auto)]

ghost use Rattle.std.specs.Prelude.{◌≡◌};
ghost use Rattle.plate.specs.Telling.{number_of, value_after};
ghost use Rattle.meter.specs.Corrections.{meter_verdict};
ghost use Rattle.diilvak_meter.specs.Reports.{version, figure_of, meter_of};

use meter::{Figure, Meter};

// A figure as C has it. `drifting` is 0 for a steady one, whose second number is not looked at. By hand in place
// of the enum: C has it by value (include/diilvak_meter.h).
#[derive(Clone, Copy)]
#[repr(C)]
pub struct Reported {
    pub first: f32,
    pub second: f32,
    pub drifting: usize,
}

// Both figures as C has them.
#[derive(Clone, Copy)]
#[repr(C)]
pub struct Report {
    pub lamp: Reported,
    pub dark: Reported,
}

// This version, 0.1.0, as one number: major * 10000 + minor * 100 + patch.
const VERSION: usize = 100;

// The version that a program runs with, for callers to hold to that of their header.
#[unsafe(no_mangle)]
pub extern "C" fn diilvak_meter_version() -> usize
    ensures { result ≡ version }
{
    VERSION
}

// The figure that is meant.
impl From<Reported> for Figure {
    ghost from_gives = { λ r f. f ≡ figure_of r };

    fn from(reported: Reported) -> Figure {
        if reported.drifting == 0 {
            return Figure::Steady(reported.first);
        }
        Figure::Drifting(reported.first, reported.second)
    }
}

// Both figures that are meant.
impl From<Report> for Meter {
    ghost from_gives = { λ r m. m ≡ meter_of r };

    fn from(report: Report) -> Meter {
        Meter {
            lamp: Figure::from(report.lamp),
            dark: Figure::from(report.dark),
        }
    }
}

// 0, and the word of the correction that the figures give; or 19, and `word` is as it was.
#[unsafe(no_mangle)]
pub extern "C" fn diilvak_meter_word(report: Report, word: &mut u16) -> usize
    ensures value { result ≡ number_of (meter_verdict (meter_of report)) }
    ensures word_after { word.new ≡ value_after (meter_verdict (meter_of report)) word.old }
{
    match Meter::from(report).correction() {
        Ok(given) => {
            *word = given;
            0
        }
        Err(refusal) => refusal.number(),
    }
}
