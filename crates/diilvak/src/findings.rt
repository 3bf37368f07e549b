// The findings book for C and Rust: handed to each call by value and handed back, as in the proved functions
// (include/diilvak_book.h has the declarations).
ghost use Rattle.std.specs.Prelude.{◌≡◌, [], length as size};
ghost use Rattle.theory.specs.Trace.{Shows};
ghost use Rattle.book.specs.Entries.{book_of};
ghost use Rattle.book.specs.Refusals.{entered, withdraw_verdict, handed_back};
ghost use Rattle.entering.specs.Refusals.{key_of, enter_trace_verdict};
ghost use Rattle.plate.specs.Telling.{number_of, lent_after, value_after};
ghost use Rattle.diilvak.specs.Numbers.{setting_of, ShownAfter};

use crate::taking::setting_of;
use crate::telling::tell_trace;
use book::{Book, Kept};
use entering::Pixel;

// A book in which nothing stands.
#[unsafe(no_mangle)]
pub extern "C" fn diilvak_new_book() -> Book
    ensures { result ≡ book_of 0 [] }
{
    Book::new()
}

// The book without the entries of a serial number, or refusal 15 or 17.
#[unsafe(no_mangle)]
pub extern "C" fn diilvak_withdraw(book: Book, serial: u32) -> Kept
    ensures { result ≡ handed_back (withdraw_verdict book serial) book }
{
    book.withdraw(serial)
}

// The path of best level through a pixel, as `diilvak_trace` gives it, and the book with the trace entered.
#[unsafe(no_mangle)]
pub extern "C" fn diilvak_enter_trace(
    width: usize,
    height: usize,
    plate: &[i16],
    length: usize,
    gaps: usize,
    directions: usize,
    mode: usize,
    ends: usize,
    pixel: Pixel,
    book: Book,
    path: &mut [usize],
    work: &mut [u16],
    direction: &mut usize,
    level: &mut i16,
) -> Kept
    ensures number_value { result.number ≡ number_of (enter_trace_verdict width height (setting_of length gaps directions mode ends) plate.now pixel book (size path.old) (size work.old)) }
    ensures level_after { level.new ≡ value_after (enter_trace_verdict width height (setting_of length gaps directions mode ends) plate.now pixel book (size path.old) (size work.old)) level.old }
    ensures shown_after { ShownAfter (enter_trace_verdict width height (setting_of length gaps directions mode ends) plate.now pixel book (size path.old) (size work.old)) (Shows (setting_of length gaps directions mode ends) width height plate.now pixel.place) direction.old direction.new path.old path.new work.old work.new }
    ensures book_value { result.book ≡ lent_after (enter_trace_verdict width height (setting_of length gaps directions mode ends) plate.now pixel book (size path.old) (size work.old)) (entered book (key_of (setting_of length gaps directions mode ends) pixel) level.new direction.new) book }
{
    let setting = setting_of(length, gaps, directions, mode, ends);
    let done = entering::enter_trace(width, height, plate, setting, pixel, book, path, work);
    Kept {
        number: tell_trace(done.traced, direction, level),
        book: done.book,
    }
}
