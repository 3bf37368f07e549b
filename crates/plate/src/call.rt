// The checks that calls have in common: 1 to 8 of document 01's table (section 5), in its order, with 18 of
// document 02 between 5 and 6. A call asks here before its first store, and goes on only where nothing is
// refused.
ghost use Rattle.std.specs.Prelude.{◌≡◌};
ghost use Rattle.plate.specs.Answers.{answered, wanted_for, call_verdict};

use crate::refusal::{Reason, Refusal};
use crate::setting::Setting;
use crate::size;

// What a call fills: a result, which has a number for each pixel, or a path, which has L places.
#[derive(Clone, Copy)]
pub enum Fills {
    Result,
    Path,
}

// The lengths of the buffers that a call is lent: of its input, of the buffer that it fills, and of its
// work.
#[derive(Clone, Copy)]
pub struct Lent {
    pub input: usize,
    pub fills: Fills,
    pub filled: usize,
    pub work: usize,
}

// The length that check 7 asks for.
fn wanted(fills: Fills, pixels: usize, length: usize) -> usize
    ensures { result ≡ wanted_for pixels length fills }
{
    match fills {
        Fills::Result => pixels,
        Fills::Path => length,
    }
}

// Refuses (1 to 8, 18), or is done: then every number is within its bounds and every buffer as long as it has
// to be. The size's product is formed only after the size has passed, and the work's length after the gaps.
pub fn judge(width: usize, height: usize, setting: Setting, lent: Lent) -> Result<(), Refusal>
    ensures { answered result ≡ call_verdict width height setting lent }
{
    Reason::Size.refuse_if(size::bad_size(width, height))?;
    setting.checked()?;
    let pixels = width * height;
    let exactly = wanted(lent.fills, pixels, setting.length);
    let at_least = 4 * (setting.gaps + 1) * pixels;
    Reason::Input.refuse_if(lent.input != pixels)?;
    Reason::Result.refuse_if(lent.filled != exactly)?;
    Reason::Work.refuse_if(lent.work < at_least)
}
