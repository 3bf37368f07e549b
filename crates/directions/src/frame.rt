// A direction's lines on the plate. In a frame every direction is one of two: straight, where a step goes
// on to the line before, one pixel to either side or none; or diagonal, where it goes to the line before,
// one pixel back on the same line, or both. Which, and how the lines are counted, is read off the
// direction's middle step in the table.
ghost use Rattle.std.specs.Prelude.{◌≡◌, ◌*◌, ◌<◌};
ghost use Rattle.plate.specs.Sizes.{GoodSize};
ghost use Rattle.frames.specs.Frames.{Bounded, place_in};
ghost use Rattle.frames.specs.Frames.{counted_from};
ghost use Rattle.directions.specs.Plans.{by_rows};
ghost use Rattle.directions.specs.Doors.{frame_of, spot_of};

use frames::Frame;

// A pixel of a frame.
#[derive(Clone, Copy)]
pub struct Spot {
    pub line: usize,
    pub pixel: usize,
}

// A number below n, or counted from the last one.
fn counted_from(last: bool, n: usize, i: usize) -> usize
    requires { i < n }
    ensures { (result ≡ counted_from last n i) × (result < n) }
{
    if last { n - 1 - i } else { i }
}

// The place on the plate of a pixel of a line.
pub(crate) fn place(frame: Frame, line: usize, pixel: usize) -> usize
    requires bounded { Bounded frame }
    requires line_lt_lines { (line < frame.lines) × (pixel < frame.across) }
    ensures { result ≡ place_in frame line pixel }
{
    let i = counted_from(frame.flipped, frame.lines, line);
    let x = counted_from(frame.mirrored, frame.across, pixel);
    i * frame.leap + x * frame.hop
}

// A direction of the step table, by its index there, on a plate of this size.
#[derive(Clone, Copy)]
pub(crate) struct Way {
    pub(crate) width: usize,
    pub(crate) height: usize,
    pub(crate) index: usize,
}

impl Way {
    // Whether the lines are rows of the plate: they are where the middle step changes the row alone; on the
    // diagonals the shorter of the two are lines.
    pub(crate) fn by_rows(self) -> bool
        ensures { result ≡ by_rows self.width self.height self.index }
    {
        if frames::columns_on(self.index, 1, false) == 1 {
            return true;
        }
        if frames::rows_on(self.index, 1, false) == 1 {
            return false;
        }
        self.width <= self.height
    }

    // The direction's frame.
    pub(crate) fn frame(self) -> Frame
        ensures { result ≡ frame_of self.width self.height self.index }
    {
        // the middle step's changes plus one
        let column = frames::columns_on(self.index, 1, false);
        let row = frames::rows_on(self.index, 1, false);
        let diagonal = column != 1 && row != 1;
        if self.by_rows() {
            return Frame {
                lines: self.height,
                across: self.width,
                leap: self.width,
                hop: 1,
                flipped: row == 2,
                mirrored: column == 2,
                diagonal,
            };
        }
        Frame {
            lines: self.width,
            across: self.height,
            leap: 1,
            hop: self.width,
            flipped: column == 2,
            mirrored: row == 2,
            diagonal,
        }
    }

    // Where the pixel at a place stands in the frame.
    pub(crate) fn spot_of(self, at: usize) -> Spot
        requires { (GoodSize self.width self.height) × (self.index < 4) × (at < self.width * self.height) }
        ensures { result ≡ spot_of self.width self.height self.index at }
    {
        let frame = self.frame();
        let column = at % self.width;
        let row = at / self.width;
        if self.by_rows() {
            return Spot {
                line: counted_from(frame.flipped, frame.lines, row),
                pixel: counted_from(frame.mirrored, frame.across, column),
            };
        }
        Spot {
            line: counted_from(frame.flipped, frame.lines, column),
            pixel: counted_from(frame.mirrored, frame.across, row),
        }
    }
}
