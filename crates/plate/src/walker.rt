// The walker: stands on a pixel and takes one numbered step of its direction.
ghost use Rattle.std.specs.Prelude.{◌≡◌, ◌<◌, pos, ◌+ℤ◌};
ghost use Rattle.plate.specs.Within.{within};
ghost use Rattle.plate.specs.Answers.{walked};

use crate::{size, steps};

// A walker on a plate of this size, on the pixel at this place, which goes in the direction with
// this bit.
#[derive(Clone, Copy, Debug, PartialEq, Eq)]
pub struct Walker {
    pub width: usize,
    pub height: usize,
    pub direction: usize,
    pub place: usize,
}

impl Walker {
    // The walker after the numbered step. A step off the plate leaves, and so does whatever makes no
    // step: another number, a bit that the table does not have, a pixel off the plate, a size that
    // refusal 1 forbids.
    pub fn step(self, number: usize) -> Option<Walker>
        ensures { result ≡ walked self number }
    {
        let Walker {
            width,
            height,
            direction,
            place,
        } = self;
        if size::bad_size(width, height) {
            return None;
        }
        if place >= width * height {
            return None;
        }
        let index = steps::index_of(direction);
        if index >= steps::DIRECTIONS {
            return None;
        }
        if number >= steps::STEPS_EACH {
            return None;
        }
        let column = shifted(place % width, steps::column_change(index, number), width)?;
        let row = shifted(place / width, steps::row_change(index, number), height)?;
        Some(Walker {
            place: row * width + column,
            ..self
        })
    }
}

// A column or row moved by a change, where it is still from 0 below `end`.
fn shifted(at: usize, change: i8, end: usize) -> Option<usize>
    requires { at < 65536 }
    ensures { result ≡ within end (pos at +ℤ change) }
{
    let moved = at.checked_add_signed(isize::from(change))?;
    (moved < end).then_some(moved)
}
