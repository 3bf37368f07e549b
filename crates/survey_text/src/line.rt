// The line at the cursor, read: what it says and the cursor behind it, or the line's refusal.
ghost use Rattle.std.specs.Prelude.{◌≡◌, ℕ, List, length};
ghost use Rattle.text_lines.specs.Format.{number, list};
ghost use Rattle.survey_text.specs.Reading.{next, edition_line};
ghost use Rattle.survey_text.specs.Cursors.{rest_of, value_told, step_told, filled_told, Reads};
ghost use mathlib.Core.Option.{Option as Maybe, some};

use crate::cursor::Cursor;
use plate::Refusal;
use text_lines::{edition_in, list_in, number_in, value_at};

// The line at the cursor: the bytes behind its name.
fn value_line<'a>(c: Cursor<'a>, name: &[u8]) -> Result<(&'a [u8], Cursor<'a>), Refusal>
    ensures { value_told result ≡ next name.now some (rest_of c.entry) }
{
    let value = value_at(c.text, name, c.from).ok_or(c.refusal())?;
    let next = Cursor {
        text: c.text,
        from: value.end + 1,
        line: c.line + 1,
    };
    Ok((&c.text[value.from..value.end], next))
}

// The line at the cursor: its name, then a value of the form that `read` reads. Its callers pass closures,
// since a function of another crate gets no proof where it is passed by its name.
fn form_line<'a, F: Fn(&[u8]) -> Option<usize>>(
    c: Cursor<'a>,
    name: &[u8],
    read: F,
) -> Result<(usize, Cursor<'a>), Refusal>
    requires { F.IsAlwaysCallable read }
    ensures { (form : List ℕ → Maybe ℕ) → Reads F.Fn read form → step_told result ≡ next name.now form (rest_of c.entry) }
{
    let (value, next) = value_line(c, name)?;
    let found = read(value).ok_or(c.refusal())?;
    Ok((found, next))
}

// The line at the cursor: its name, then a number.
pub(crate) fn number_line<'a>(c: Cursor<'a>, name: &[u8]) -> Result<(usize, Cursor<'a>), Refusal>
    ensures { step_told result ≡ next name.now number (rest_of c.entry) }
{
    form_line(c, name, |bytes| number_in(bytes))
}

// The line at the cursor: `plate=`, then the edition of the format.
#[tactic(auto, unfolding(crate::specs::Reading::edition_line))]
pub(crate) fn edition_line(c: Cursor) -> Result<(usize, Cursor), Refusal>
    ensures { step_told result ≡ edition_line (rest_of c.entry) }
{
    form_line(c, b"plate=", |bytes| edition_in(bytes))
}

// The line at the cursor: its name, then as many numbers as out has places for.
pub(crate) fn list_line<'a>(
    c: Cursor<'a>,
    name: &[u8],
    out: &mut [u16],
) -> Result<Cursor<'a>, Refusal>
    ensures { filled_told out.new result ≡ next name.now (list (length out.old)) (rest_of c.entry) }
{
    let (value, next) = value_line(c, name)?;
    if !list_in(value, out) {
        return Err(c.refusal());
    }
    Ok(next)
}
