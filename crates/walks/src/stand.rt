// Where a walk stands.

// A pixel of a state, with the gaps that are left for it and the pixels nearer to the picked one.
#[derive(Clone, Copy)]
pub struct Stand {
    pub state: usize,
    pub row: usize,
    pub pixel: usize,
    pub gaps: usize,
}
