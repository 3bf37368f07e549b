// A direction as it is walked from the picked pixel: how far a pixel stands along it, how many steps lead on, and
// where a step of the table leads.
ghost use Rattle.std.specs.Prelude.{◌≡◌, ◌*◌, ◌^◌, ◌≤◌, ◌<◌};
ghost use Rattle.plate.specs.Paths.{span};

// A direction, walked on or back, on a plate of this size.
#[derive(Clone, Copy)]
pub(crate) struct Heading {
    pub(crate) width: usize,
    pub(crate) height: usize,
    // the direction's place in the step table
    pub(crate) index: usize,
    // the length of the direction's longest paths
    pub(crate) longest: usize,
    pub(crate) backwards: bool,
    // the numbers are those of a plate and a direction of the table
    ghost wide: { 1 ≤ width },
    ghost narrow: { width ≤ 1024 },
    ghost low: { height ≤ 1024 },
    ghost listed: { index < 4 },
    ghost is_longest: { longest ≡ span width height (2 ^ index) },
}

impl Heading {
    ghost use Rattle.plate.specs.Sizes.{GoodSize};
    ghost use Rattle.theory.specs.Ranks.{rank};
    ghost use Rattle.headings.specs.Headings.{shift, bit_of, room_at, reached_at, landed};

    // The direction at an index of the table.
    pub(crate) fn new(width: usize, height: usize, index: usize, backwards: bool) -> Heading
        requires good_size { GoodSize width height }
        requires listed { index < 4 }
        ensures { (result.width ≡ width) × (result.height ≡ height) × (result.index ≡ index) × (result.backwards ≡ backwards) }
    {
        let longest = plate::span_of(width, height, index);
        Heading {
            width,
            height,
            index,
            longest,
            backwards,
        }
    }

    // What a row adds to the rank of its pixels, beside their column.
    fn shift_of(self, row: usize) -> usize
        requires { row < self.height }
        ensures { result ≡ shift self.index self.height row }
    {
        match self.index {
            1 => 0,
            3 => row,
            _ => self.height - 1 - row,
        }
    }

    // How many lines the pixel at p stands from where the direction's longest paths start.
    pub(crate) fn rank_of(self, p: usize) -> usize
        requires { p < self.width * self.height }
        ensures { result ≡ rank self.width self.height (bit_of self) p }
    {
        let shift = self.shift_of(p / self.width);
        if self.index == 0 {
            return shift;
        }
        p % self.width + shift
    }

    // How many steps lead on from p.
    pub(crate) fn room_of(self, p: usize) -> usize
        requires { p < self.width * self.height }
        ensures { result ≡ room_at self p }
    {
        let rank = self.rank_of(p);
        if self.backwards {
            return rank;
        }
        self.longest - 1 - rank
    }

    // The place that the numbered step leads to from p; none where it leaves.
    pub(crate) fn neighbour(self, number: usize, p: usize) -> Option<usize>
        requires { (p < self.width * self.height) × (number < 3) }
        ensures { result ≡ landed (reached_at self number p) }
    {
        let columns = frames::columns_on(self.index, number, self.backwards);
        let rows = frames::rows_on(self.index, number, self.backwards);
        let x = (p % self.width + columns).checked_sub(1)?;
        let y = (p / self.width + rows).checked_sub(1)?;
        if x >= self.width {
            return None;
        }
        if y >= self.height {
            return None;
        }
        Some(y * self.width + x)
    }
}
