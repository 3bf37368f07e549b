// How long the paths of a direction can be: on every size and index there is an answer.
ghost use Rattle.std.specs.Prelude.{◌≡◌};
ghost use Rattle.plate.specs.Sizes.{span_of};

use crate::{size, steps};

// The length of the longest paths of the direction at this index of the step table, told by its middle step.
// Where that keeps its column every step leads to another row, so a path has at most as many pixels as there
// are rows; where it keeps its row, as there are columns. Beside a diagonal one stand a step along the row
// and one along the column, so a path can take all columns and all rows. By hand: 0 where refusal 1 forbids the
// size or the table has no such index, since the definition `span_of` gives a number of every size and index.
pub fn span_of(width: usize, height: usize, index: usize) -> usize
    ensures { result ≡ span_of width height index }
{
    if size::bad_size(width, height) {
        return 0;
    }
    if index >= steps::DIRECTIONS {
        return 0;
    }
    if steps::column_change(index, 1) == 0 {
        return height;
    }
    if steps::row_change(index, 1) == 0 {
        return width;
    }
    width + height - 1
}
