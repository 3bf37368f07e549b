// Where the reading of a text stands.
ghost use Rattle.std.specs.Prelude.{◌+◌, ◌≤◌};

use plate::{Reason, Refusal};

// The text, the place of its next line's first byte, and that line's number. There are no more lines than
// bytes in front of the place, so that their number never wraps. The text with a place, and not the rest of
// it as a slice, since `text_lines::value_at` takes a place of a text.
#[derive(Clone, Copy)]
pub(crate) struct Cursor<'a> {
    pub(crate) text: &'a [u8],
    pub(crate) from: usize,
    pub(crate) line: usize,
    ghost few: { line ≤ from + 1 },
}

impl<'a> Cursor<'a> {
    ghost use Rattle.std.specs.Prelude.{◌≡◌};
    ghost use Rattle.plate.specs.declared.refusal.Reason.TheVariants.{Line};

    // The refusal of the next line.
    pub(crate) fn refusal(self) -> Refusal
        ensures { result ≡ record { reason = Line; place = self.entry.line } }
    {
        Refusal {
            reason: Reason::Line,
            place: self.line,
        }
    }
}
