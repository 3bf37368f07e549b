// Tests the filter by document 01's worked plates (section 7), those of sieving twice (sieving.rt), those of
// a crack's ends (ends.rt) and those known between two levels (bounds.rt): each prints its name and its
// filtered levels; the file stdout beside src/ has what the papers say.
#![tactic(auto)]

mod bounds;
mod ends;
mod printing;
mod settings;
mod sieving;

use crate::printing::{filtered, print_plate};
use crate::settings::{ALL_FOUR, CLOSING, EAST, NORTH, NORTH_EAST, OPENING, SOUTH_EAST, setting};
use plate::Setting;
use std::io;

fn main(rt: HostRuntime) -> io::Result<()> {
    one_pixel(&rt)?;
    row_of_four(&rt)?;
    two_rows(&rt)?;
    sieving::sieve_rows(&rt)?;
    ends::end_rows(&rt)?;
    bounds::bound_rows(&rt)
}

fn one_pixel(rt: &impl Print) -> io::Result<()> {
    let cases = [
        ("P1", -7, setting(OPENING, ALL_FOUR, 1, 0)),
        ("P2", 3, setting(OPENING, ALL_FOUR, 2, 1)),
        ("P10", -32768, setting(CLOSING, ALL_FOUR, 1, 0)),
    ];
    for (name, level, setting) in cases {
        let answer = filtered(1, 1, &[level], setting, &mut [0; 1], &mut [0; 8]);
        print_plate(rt, name, answer)?;
    }
    Ok(())
}

// The work buffer has other numbers in it than zeros, and more than are asked for.
fn filter_four(
    rt: &impl Print,
    name: &str,
    width: usize,
    height: usize,
    plate: &[i16; 4],
    setting: Setting,
) -> io::Result<()> {
    let answer = filtered(width, height, plate, setting, &mut [0; 4], &mut [4321; 40]);
    print_plate(rt, name, answer)
}

fn row_of_four(rt: &impl Print) -> io::Result<()> {
    let q = [9, 5, 12, 8];
    let cases = [
        ("P3", setting(OPENING, EAST, 4, 1)),
        ("P4", setting(OPENING, EAST, 4, 0)),
        ("P5", setting(CLOSING, EAST, 4, 1)),
        ("P6", setting(OPENING, NORTH, 2, 0)),
        ("P6 closing", setting(CLOSING, NORTH, 2, 0)),
        ("P7", setting(OPENING, NORTH_EAST, 2, 0)),
    ];
    for (name, setting) in cases {
        filter_four(rt, name, 4, 1, &q, setting)?;
    }
    Ok(())
}

fn two_rows(rt: &impl Print) -> io::Result<()> {
    let x = [1, 9, 9, 1];
    filter_four(rt, "P8", 2, 2, &x, setting(OPENING, NORTH_EAST, 2, 0))?;
    filter_four(rt, "P9", 2, 2, &x, setting(OPENING, SOUTH_EAST, 2, 0))
}
