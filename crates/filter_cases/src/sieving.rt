// Sieving twice (document 02, N2): worked rows, filtered to the east by one length, by another, and by both
// in either order. What two filterings come to is not only printed: it is the contract of sieve_twice. The
// papers do not give the closing by 2 alone; that line is the listing's (rust/checking).
ghost use Rattle.std.specs.Prelude.{max, ◌≡◌};
ghost use Rattle.plate.specs.Answers.{result_after};
ghost use Rattle.theory.specs.Modes.{Levels};
ghost use Rattle.theory.specs.SievingTwice.{filtered_by};

use crate::printing::{filtered, print_answer};
use crate::settings::{CLOSING, EAST, OPENING, setting};
use plate::{Refusal, Setting};
use std::io;

// Reads every level, since a proof learns that a level has 16 bits, as its type says, only where it is read.
fn read_through(plate: &[i16])
    ensures { Levels plate.now }
{
    for level in plate {
        let _level = *level;
    }
}

// Filters by the setting, and what that leaves by the other length: the two calls that a surveyor makes. If
// both are accepted, the result is that of one call by the larger length, where a path's ends may be gaps;
// else it is as it was.
fn sieve_twice(
    width: usize,
    height: usize,
    plate: &[i16],
    setting: Setting,
    other: usize,
    between: &mut [i16],
    res: &mut [i16],
    work: &mut [u16],
) -> Result<(), Refusal>
    ensures { setting.ends ≡ 0 → res.new ≡ result_after result (filtered_by setting width height (max setting.length other) plate.now) res.old }
{
    read_through(plate);
    engine::filter(width, height, plate, setting, between, work)?;
    let by_other = Setting {
        length: other,
        ..setting
    };
    engine::filter(width, height, between, by_other, res, work)
}

// By either length alone, and by both in either order, each with what the last one left in the buffers.
fn sieve_row<const N: usize>(
    rt: &impl Print,
    name: &str,
    row: &[i16; N],
    setting: Setting,
    short: usize,
    long: usize,
) -> io::Result<()> {
    let mut between = [0; N];
    let mut res = [0; N];
    for length in [short, long] {
        let setting = Setting { length, ..setting };
        print!(rt; "{name} by {length}")?;
        print_answer(rt, filtered(N, 1, row, setting, &mut res, &mut [4321; 40]))?;
    }
    for (length, other) in [(short, long), (long, short)] {
        let setting = Setting { length, ..setting };
        let mut work = [4321; 40];
        let answer = sieve_twice(N, 1, row, setting, other, &mut between, &mut res, &mut work);
        print!(rt; "{name} by {length}, then by {other}")?;
        print_answer(rt, answer.map(|()| res))?;
    }
    Ok(())
}

pub(crate) fn sieve_rows(rt: &impl Print) -> io::Result<()> {
    let q = [9, 5, 12, 8];
    let opening = setting(OPENING, EAST, 4, 1);
    let closing = setting(CLOSING, EAST, 4, 1);
    sieve_row(rt, "Q", &q, opening, 2, 4)?;
    sieve_row(rt, "Q closing", &q, closing, 2, 4)?;
    // there is no path of five pixels
    sieve_row(rt, "Q", &q, opening, 3, 5)?;
    sieve_row(rt, "Q closing", &q, closing, 3, 5)?;
    let z = [3, 9, 9, 2, 9, 9, 9, 1];
    sieve_row(rt, "Z", &z, setting(OPENING, EAST, 3, 0), 2, 3)
}
