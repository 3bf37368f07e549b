// The steps of the table, as changes plus one: so the edges of the plate are natural numbers. Every scan and
// trace reads its steps here.
ghost use Rattle.std.specs.Prelude.{◌≡◌, ◌≤◌};
ghost use Rattle.frames.specs.Steps.{biased, columns_on, rows_on};

// A change by -1, 0 or 1, or its negation, plus one.
fn bias(d: i8, backwards: bool) -> usize
    ensures { (result ≡ biased backwards d) × (result ≤ 2) }
{
    let change = match d {
        0 => 1,
        1 => 2,
        _ => 0,
    };
    if backwards { 2 - change } else { change }
}

// By how many columns the numbered step of the direction at this index goes, or backwards; plus one.
pub fn columns_on(index: usize, number: usize, backwards: bool) -> usize
    ensures { (result ≡ columns_on index number backwards) × (result ≤ 2) }
{
    bias(plate::column_change(index, number), backwards)
}

// By how many rows.
pub fn rows_on(index: usize, number: usize, backwards: bool) -> usize
    ensures { (result ≡ rows_on index number backwards) × (result ≤ 2) }
{
    bias(plate::row_change(index, number), backwards)
}
