// Reading a plate's text. The order of judgement is document 01's (section 6): the text's length, the
// lines up to `height=`, refusals 1 and 14 on the size, then the other lines. The first line names the
// edition (document 02, N5); edition 2 has one line more, `ends=`.
ghost use Rattle.std.specs.Prelude.{◌≡◌, [], ◌∷◌, ◌*◌, ◌≤◌, ltb, length};
ghost use Rattle.plate.specs.RefusalNumbers.{refusal_large};
ghost use Rattle.plate.specs.Refusals.{row, judged, size_check};
ghost use Rattle.plate.specs.Answers.{answered};
ghost use Rattle.survey_text.specs.Reading.{max_plate, opening, size_lines, ends_line, setting_lines, row_lines, at_end, plate_lines, reading};
ghost use Rattle.survey_text.specs.Within.{reading_told};
ghost use Rattle.survey_text.specs.Cursors.{rest_of, opened_told, step_told, filled_told, all_told};

use crate::cursor::Cursor;
use crate::line::{edition_line, list_line, number_line};
use plate::{Reason, Refusal, Setting};

// The longest text, in bytes, and the largest plate, in pixels, of the program.
const MAX_BYTES: usize = 16384;

pub const MAX_PLATE: usize = 512;

// The first edition of the format with a line `ends=`. Editions are numbers, as the definitions have them
// (text_lines/specs/Format.antt `edition`, specs/Reading.antt `ends_line`).
const WITH_ENDS: usize = 2;

// What a plate's text says besides its readings and its words; `at` is the pixel to trace.
#[derive(Clone, Copy)]
pub struct Header {
    pub width: usize,
    pub height: usize,
    pub setting: Setting,
    pub at: usize,
}

// The first line, unless the text is too long.
fn open(s: &[u8]) -> Result<Cursor, Refusal>
    ensures { opened_told result ≡ opening s.now }
{
    Reason::Text.refuse_if(s.len() > MAX_BYTES)?;
    Ok(Cursor {
        text: s,
        from: 0,
        line: 1,
    })
}

// Refusals 1 and 14 on a size that was read.
fn judge_size(width: usize, height: usize) -> Result<(), Refusal>
    ensures { answered result ≡ judged (size_check width height ∷ row refusal_large (ltb max_plate (width * height)) 0 ∷ []) tt }
{
    Reason::Size.refuse_if(plate::bad_size(width, height))?;
    Reason::Text.refuse_if(width * height > MAX_PLATE)
}

// The lines `width=` and `height=`; the size is judged. It stays two numbers here and below, as in the header
// and in the definitions.
#[tactic(auto, unfolding(crate::specs::Reading::size_lines))]
fn size_lines(c: Cursor) -> Result<((usize, usize), Cursor), Refusal>
    ensures { step_told result ≡ size_lines (rest_of c.entry) }
{
    let (width, c) = number_line(c, b"width=")?;
    let (height, c) = number_line(c, b"height=")?;
    judge_size(width, height)?;
    Ok(((width, height), c))
}

// The line `ends=`. Where the edition has none, nothing is read and 0 is meant; an `ends=` that stands there
// all the same is refused by the next step, which wants `ways=`.
#[tactic(auto, unfolding(crate::specs::Reading::ends_line))]
fn ends_line(c: Cursor, edition: usize) -> Result<(usize, Cursor), Refusal>
    ensures { step_told result ≡ ends_line edition (rest_of c.entry) }
{
    if edition < WITH_ENDS {
        return Ok((0, c));
    }
    number_line(c, b"ends=")
}

// The lines from `length=` to `at=`: the setting, and the pixel to trace.
#[tactic(auto, unfolding(crate::specs::Reading::setting_lines))]
fn setting_lines(c: Cursor, edition: usize) -> Result<((Setting, usize), Cursor), Refusal>
    ensures { step_told result ≡ setting_lines edition (rest_of c.entry) }
{
    let (length, c) = number_line(c, b"length=")?;
    let (gaps, c) = number_line(c, b"gaps=")?;
    let (ends, c) = ends_line(c, edition)?;
    let (directions, c) = number_line(c, b"ways=")?;
    let (mode, c) = number_line(c, b"mode=")?;
    let (at, c) = number_line(c, b"at=")?;
    let setting = Setting {
        length,
        gaps,
        directions,
        mode,
        ends,
    };
    Ok(((setting, at), c))
}

// Fills out, row by row, from as many lines of this name as the plate has rows.
fn row_lines<'a>(
    c: Cursor<'a>,
    name: &[u8],
    width: usize,
    height: usize,
    out: &mut [u16],
) -> Result<Cursor<'a>, Refusal>
    requires { length out.old ≡ height * width }
    ensures { filled_told out.new result ≡ row_lines name.now width height (rest_of c.entry) }
{
    let mut here = c;
    // By index: of a buffer that `chunks_exact_mut` has lent row by row, a proof knows the length and no number.
    for i in 0..height {
        let start = i * width;
        here = list_line(here, name, &mut out[start..start + width])?;
    }
    Ok(here)
}

// No line may be left.
fn end_of_text(c: Cursor) -> Result<(), Refusal>
    ensures { answered result ≡ at_end (rest_of c.entry) }
{
    if c.from < c.text.len() {
        return Err(c.refusal());
    }
    Ok(())
}

// The readings, the correction words, and the end of the text.
#[tactic(auto, unfolding(crate::specs::Reading::plate_lines))]
fn plate_lines(
    c: Cursor,
    width: usize,
    height: usize,
    readings: &mut [u16],
    words: &mut [u16],
) -> Result<(), Refusal>
    requires readings_len { length readings.old ≡ height * width }
    requires words_len { length words.old ≡ height * width }
    ensures { all_told (readings.new, words.new) result ≡ plate_lines width height (rest_of c.entry) }
{
    let c = row_lines(c, b"row=", width, height, readings)?;
    let c = row_lines(c, b"cor=", width, height, words)?;
    end_of_text(c)
}

// Reads a text: the numbers of its head, and into the front of the two lent buffers its readings and
// its correction words.
#[tactic(auto, unfolding(crate::specs::Reading::reading))]
pub(crate) fn read(
    s: &[u8],
    readings: &mut [u16; MAX_PLATE],
    words: &mut [u16; MAX_PLATE],
) -> Result<Header, Refusal>
    ensures { reading_told readings.new words.new result ≡ reading s.now }
{
    let c = open(s)?;
    let (edition, c) = edition_line(c)?;
    let ((width, height), c) = size_lines(c)?;
    let ((setting, at), c) = setting_lines(c, edition)?;
    let n = width * height;
    plate_lines(c, width, height, &mut readings[..n], &mut words[..n])?;
    Ok(Header {
        width,
        height,
        setting,
        at,
    })
}
