// How the keys of a frame are kept, row after row: by its lines, or by its ranks; and the place on the plate of the
// pixel that each key belongs to.
ghost use Rattle.std.specs.Prelude.{◌≡◌, ◌+◌, ◌*◌, ◌<◌};
ghost use Rattle.directions.specs.Numbers.{KeptOn};

use crate::frame::place;
use frames::Frame;

// A frame whose keys are kept by lines, or where they are `ranked` by ranks.
#[derive(Clone, Copy)]
pub(crate) struct Kept {
    pub(crate) frame: Frame,
    pub(crate) ranked: bool,
    // the frame's keys can be kept so
    ghost kept_on: { KeptOn frame ranked },
}

impl Kept {
    ghost use Rattle.directions.specs.Numbers.{line_kept, place_kept};

    // The line of the frame whose pixel x has its key in this row of keys.
    fn line_of(self, row: usize, x: usize) -> usize
        requires { (row < self.frame.lines) × (x < self.frame.across) }
        ensures { (result ≡ line_kept self.frame self.ranked row x) × (result < self.frame.lines) }
    {
        if !self.ranked {
            return row;
        }
        if x <= row {
            return row - x;
        }
        row + self.frame.lines - x
    }

    // The place of the pixel x whose key is in this row of keys.
    pub(crate) fn place_of(self, row: usize, x: usize) -> usize
        requires { (row < self.frame.lines) × (x < self.frame.across) }
        ensures { (result ≡ place_kept self.frame self.ranked (row * self.frame.across + x)) × (result < self.frame.lines * self.frame.across) }
    {
        let line = self.line_of(row, x);
        place(self.frame, line, x)
    }

    // The place of the pixel whose key stands at q.
    pub(crate) fn place_at(self, q: usize) -> usize
        requires { q < self.frame.lines * self.frame.across }
        ensures { result ≡ place_kept self.frame self.ranked q }
    {
        self.place_of(q / self.frame.across, q % self.frame.across)
    }
}
