// What a trace answers.

// The bit of the path's direction (document 01: way), a number as in a setting, and the pixel's filtered level;
// the path itself is in a lent buffer. A trace that is refused answers a refusal in its place.
#[derive(Clone, Copy, Debug, PartialEq, Eq)]
pub struct Trace {
    pub direction: usize,
    pub level: i16,
}
