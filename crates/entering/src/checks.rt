// All checks of a call that enters a trace: the trace's, then the book's.
ghost use Rattle.std.specs.Prelude.{◌≡◌};
ghost use Rattle.plate.specs.Refusals.{judged};
ghost use Rattle.plate.specs.Answers.{answered};
ghost use Rattle.entering.specs.Refusals.{enter_trace_checks};

use crate::pixel::{Pixel, key_of};
use book::Book;
use plate::{Refusal, Setting};

// Refuses (1 to 8, 18, 11, 12, 15, 16), or is done, with a plate, a path and a work buffer of these lengths.
pub(crate) fn judge_entering(
    width: usize,
    height: usize,
    setting: Setting,
    pixel: Pixel,
    book: Book,
    input: usize,
    filled: usize,
    work: usize,
) -> Result<(), Refusal>
    ensures { answered result ≡ judged (enter_trace_checks width height setting input pixel book filled work) tt }
{
    tracing::judge_trace(width, height, setting, pixel.place, input, filled, work)?;
    book.judge(key_of(setting, pixel))
}
