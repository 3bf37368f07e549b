// A crack ends on crack (document 02, N5): the worked rows, filtered to the east with gaps allowed at the
// ends of a path, and without.
use crate::printing::{filtered, print_plate};
use crate::settings::{CLOSING, EAST, ON_CRACK, OPENING, setting};
use plate::Setting;
use std::io;

// One case after the other, each with what the last one left in the result.
fn filter_row<const N: usize>(
    rt: &impl Print,
    row: &[i16; N],
    cases: &[(&str, Setting)],
) -> io::Result<()> {
    let mut res = [0; N];
    for (name, setting) in cases {
        let answer = filtered(N, 1, row, *setting, &mut res, &mut [4321; 40]);
        print_plate(rt, name, answer)?;
    }
    Ok(())
}

pub(crate) fn end_rows(rt: &impl Print) -> io::Result<()> {
    let opening = setting(OPENING, EAST, 4, 1);
    let closing = setting(CLOSING, EAST, 4, 1);
    let ended = Setting {
        ends: ON_CRACK,
        ..opening
    };
    let closing_ended = Setting {
        ends: ON_CRACK,
        ..closing
    };
    let light = [("gap first", opening), ("gap first, ends 1", ended)];
    filter_row(rt, &[5, 9, 12, 8], &light)?;
    let dark = [
        ("gap first, closing", closing),
        ("gap first, closing, ends 1", closing_ended),
    ];
    filter_row(rt, &[12, 5, 9, 8], &dark)?;
    filter_row(rt, &[9, 5, 12, 8], &[("Q, ends 1", ended)])?;
    let three = Setting { length: 3, ..ended };
    let pairs = Setting { length: 2, ..ended };
    let two_gaps = [
        ("two gaps by 3, ends 1", three),
        ("two gaps by 2, ends 1", pairs),
    ];
    filter_row(rt, &[9, 1, 9, 9, 1], &two_gaps)
}
