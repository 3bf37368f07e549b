// The papers' words for the numbers of a setting.
use plate::Setting;

pub(crate) const OPENING: usize = 0;

pub(crate) const CLOSING: usize = 1;

pub(crate) const NORTH: usize = 1;

pub(crate) const EAST: usize = 2;

pub(crate) const NORTH_EAST: usize = 4;

pub(crate) const SOUTH_EAST: usize = 8;
// where the paper names no way
pub(crate) const ALL_FOUR: usize = 15;
// where a path must end on crack (document 02, N5)
pub(crate) const ON_CRACK: usize = 1;

// Where the ends of a path may be gaps.
pub(crate) fn setting(mode: usize, directions: usize, length: usize, gaps: usize) -> Setting {
    Setting {
        length,
        gaps,
        directions,
        mode,
        ends: 0,
    }
}
