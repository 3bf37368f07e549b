// The indices of a trail in the path buffer.
ghost use Rattle.std.specs.Prelude.{◌≡◌};
ghost use Rattle.headings.specs.Trails.{index_of};

// The index of the pixel so many steps from the picked one, back from its index or on; 0 where one of the two
// is 65,536 or more, or where there are more steps back than indices.
// By hand: the definition `index_of` (specs/Trails.antt) gives an index of whatever is asked.
pub fn index_after(start: usize, steps: usize, backwards: bool) -> usize
    ensures { result ≡ index_of backwards start steps }
{
    if start >= 65536 {
        return 0;
    }
    if steps >= 65536 {
        return 0;
    }
    if !backwards {
        return start + steps;
    }
    if start < steps {
        return 0;
    }
    start - steps
}
