// A direction's lines on the plate. In a frame every direction is one of two: straight, where a step
// goes on to the line before, one pixel to either side or none; or diagonal, where it goes to the line
// before, one pixel back on the same line, or both.

// The lines lie `leap` places apart on the plate, the pixels of a line `hop`. The lines are counted from
// the last one where they are flipped, the pixels where they are mirrored.
#[derive(Clone, Copy)]
pub struct Frame {
    pub lines: usize,
    pub across: usize,
    pub leap: usize,
    pub hop: usize,
    pub flipped: bool,
    pub mirrored: bool,
    pub diagonal: bool,
}
