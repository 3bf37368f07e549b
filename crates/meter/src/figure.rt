// A figure of the meter, and the one number that it stands for.
ghost use Rattle.meter.specs.Eighths.{Resolves};

use crate::numbers::{is_quarters, mean};

// Steady: one number; drifting: two numbers, whose mean is taken.
#[derive(Clone, Copy)]
pub enum Figure {
    Steady(f32),
    Drifting(f32, f32),
}

impl Figure {
    // The number that the figure stands for; none where one of its numbers may not be reported. Each number is
    // judged before the mean is taken: two bad ones can have a good mean.
    pub(crate) fn resolved(self) -> Option<f32>
        ensures { Resolves result self }
    {
        match self {
            Figure::Steady(x) if is_quarters(x) => Some(x),
            Figure::Drifting(x, y) if is_quarters(x) && is_quarters(y) => Some(mean(x, y)),
            _ => None,
        }
    }
}
