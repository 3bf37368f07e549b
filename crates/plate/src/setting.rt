// The setting of a filter or a trace, with its limits: made of five numbers, or refused (2 to 5, 18). Its
// fields are open, so every call that takes one checks it again.
ghost use Rattle.std.specs.Prelude.{◌≡◌, ltb, ◌&&◌, ◌^◌};
ghost use Rattle.plate.specs.Refusals.{setting_verdict, bad_length, bad_gaps, bad_directions, bad_mode, bad_ends};
ghost use Rattle.plate.specs.Answers.{made};
ghost use Rattle.plate.specs.Directions.{member};

use crate::refusal::{Reason, Refusal};
use crate::steps;

// A setting: the length of a path in pixels, the gaps allowed on it, the set of directions (the sum
// of their bits; document 01: ways), the mode, 0 for opening and 1 for closing, and whether the two ends of
// a path may be gaps, 0, or not, 1 (document 02, N5). Mode and ends are numbers, and directions a sum of bits,
// since callers hand in any number and are told by `checked` which is out of bounds.
#[derive(Clone, Copy, Debug, PartialEq, Eq)]
pub struct Setting {
    pub length: usize,
    pub gaps: usize,
    pub directions: usize,
    pub mode: usize,
    pub ends: usize,
}

impl Setting {
    pub const MAX_LENGTH: usize = 1024;

    pub const MAX_GAPS: usize = 8;

    pub const MAX_DIRECTIONS: usize = 15;

    pub const MAX_MODE: usize = 1;

    pub const MAX_ENDS: usize = 1;

    // The setting itself, or the refusal (2 to 5, 18) of the first number that is out of bounds.
    pub fn checked(self) -> Result<Setting, Refusal>
        ensures { made result ≡ setting_verdict self }
    {
        Reason::Length.refuse_if(bad_length(self.length))?;
        Reason::Gaps.refuse_if(bad_gaps(self.gaps, self.length))?;
        Reason::Directions.refuse_if(bad_directions(self.directions))?;
        Reason::Mode.refuse_if(bad_mode(self.mode))?;
        Reason::Ends.refuse_if(bad_ends(self.ends))?;
        Ok(self)
    }

    // Makes a setting of five numbers, or refuses.
    pub fn new(
        length: usize,
        gaps: usize,
        directions: usize,
        mode: usize,
        ends: usize,
    ) -> Result<Setting, Refusal>
        ensures { made result ≡ setting_verdict (record { length = length; gaps = gaps; directions = directions; mode = mode; ends = ends }) }
    {
        let setting = Setting {
            length,
            gaps,
            directions,
            mode,
            ends,
        };
        setting.checked()
    }

    // Is the direction with this index of the step table one of the set? No past the table.
    pub fn chooses(self, index: usize) -> bool
        ensures { result ≡ ltb index 4 && member self.directions (2 ^ index) }
    {
        index < steps::DIRECTIONS && (self.directions >> index) % 2 == 1
    }
}

fn bad_length(length: usize) -> bool
    ensures { result ≡ bad_length length }
{
    length == 0 || length > Setting::MAX_LENGTH
}

fn bad_gaps(gaps: usize, length: usize) -> bool
    ensures { result ≡ bad_gaps gaps length }
{
    gaps > Setting::MAX_GAPS || gaps >= length
}

fn bad_directions(directions: usize) -> bool
    ensures { result ≡ bad_directions directions }
{
    directions == 0 || directions > Setting::MAX_DIRECTIONS
}

fn bad_mode(mode: usize) -> bool
    ensures { result ≡ bad_mode mode }
{
    mode > Setting::MAX_MODE
}

fn bad_ends(ends: usize) -> bool
    ensures { result ≡ bad_ends ends }
{
    ends > Setting::MAX_ENDS
}
