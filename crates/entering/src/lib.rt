// A trace entered in the findings book (document 02, N3).
//
// The trace's checks come first, then the book's, and all of them before the first store: so a call that the
// book refuses has written no path. Then the trace is accepted, and the book takes its level and its direction.
#![tactic(auto)]

ghost use Rattle.std.specs.Prelude.{◌≡◌, length};
ghost use Rattle.plate.specs.Answers.{traced_level, TraceAfter};
ghost use Rattle.plate.specs.Refusals.{Clear};
ghost use Rattle.theory.specs.Trace.{Shows};
ghost use Rattle.book.specs.Refusals.{entry_checks};
ghost use Rattle.entering.specs.Refusals.{key_of, enter_trace_verdict, book_after};

mod checks;
mod pixel;

use crate::checks::judge_entering;
use crate::pixel::key_of;
use book::{Book, Key};
pub use pixel::Pixel;
use plate::{Refusal, Setting, Trace};

// What comes back: the trace or a refusal (15 and 16 too), and the book.
#[derive(Clone, Copy)]
pub struct Entered {
    pub traced: Result<Trace, Refusal>,
    pub book: Book,
}

// The book with what a trace has found entered.
fn book_after(book: Book, key: Key, traced: Result<Trace, Refusal>) -> Book
    requires { Clear (entry_checks book key) }
    ensures { result ≡ book_after traced book key }
{
    match traced {
        Ok(trace) => book.enter(key, trace.level, trace.direction).book,
        Err(_) => book,
    }
}

// Traces the path through a pixel, as `trace` does, and enters its level and direction in the book, in place of
// what stood there for the plate, the place and the mode; or refuses (1 to 8, 18, 11, 12, 15, 16) and changes
// nothing. The entry's serial number is the counter of the book that comes back.
pub fn enter_trace(
    width: usize,
    height: usize,
    plate: &[i16],
    setting: Setting,
    pixel: Pixel,
    book: Book,
    path: &mut [usize],
    work: &mut [u16],
) -> Entered
    ensures traced_value { traced_level result.traced ≡ enter_trace_verdict width height setting plate.now pixel book (length path.old) (length work.old) }
    ensures trace_after { TraceAfter result.traced (Shows setting width height plate.now pixel.place) path.old path.new work.old work.new }
    ensures book_value { result.book ≡ book_after result.traced book (key_of setting pixel) }
{
    let judged = judge_entering(
        width,
        height,
        setting,
        pixel,
        book,
        plate.len(),
        path.len(),
        work.len(),
    );
    if let Err(refusal) = judged {
        return Entered {
            traced: Err(refusal),
            book,
        };
    }
    let traced = tracing::trace(width, height, plate, setting, pixel.place, path, work);
    let after = book_after(book, key_of(setting, pixel), traced);
    Entered {
        traced,
        book: after,
    }
}
