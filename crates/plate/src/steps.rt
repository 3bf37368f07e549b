// The step table and how it is read: by a direction's index, a step's number and which of both changes is
// meant. Past the table nothing changes.
ghost use Rattle.std.specs.Prelude.{◌≡◌, ◌<◌};
ghost use Rattle.plate.specs.Directions.{index_of, step_at, change_of};

// The step table of document 01, section 2: for each direction (document 01: way) three steps, each
// a column change and a row change.
const STEPS: [[[i8; 2]; 3]; 4] = [
    [[-1, -1], [0, -1], [1, -1]], // north
    [[1, -1], [1, 0], [1, 1]], // east
    [[1, 0], [1, -1], [0, -1]], // north-east
    [[1, 0], [1, 1], [0, 1]], // south-east
];

// Directions and their steps go by number, since every public function that takes one takes any.
pub const DIRECTIONS: usize = 4;

pub const STEPS_EACH: usize = 3;

// The table's index of the direction with this bit. By hand: past the table where there is none, since the
// definition `index_of` gives a number of every bit.
pub fn index_of(direction: usize) -> usize
    ensures { result ≡ index_of direction }
{
    match direction {
        1 => 0,
        2 => 1,
        4 => 2,
        8 => 3,
        _ => DIRECTIONS,
    }
}

// The column change of a numbered step of the direction with this index. By hand, as the row change: 0 past the
// table, since the definition `step_at` gives a step of whatever is asked.
pub fn column_change(index: usize, number: usize) -> i8
    ensures { result ≡ (step_at index number).column }
{
    change(index, number, 0)
}

// The row change of the same step.
pub fn row_change(index: usize, number: usize) -> i8
    ensures { result ≡ (step_at index number).row }
{
    change(index, number, 1)
}

// An entry of the table: the column change (part 0) or the row change (part 1), which is the entry's own index.
fn change(index: usize, number: usize, part: usize) -> i8
    requires { part < 2 }
    ensures { result ≡ change_of part (step_at index number) }
{
    if index >= DIRECTIONS {
        return 0;
    }
    if number >= STEPS_EACH {
        return 0;
    }
    STEPS[index][number][part]
}
