// Filters a plate, and prints what that came to.
use plate::{Refusal, Setting};
use std::io;

// The filtered levels. What the two buffers hold before a call is free, and the work buffer may be longer than
// is asked for.
pub(crate) fn filtered<const N: usize>(
    width: usize,
    height: usize,
    plate: &[i16; N],
    setting: Setting,
    res: &mut [i16; N],
    work: &mut [u16],
) -> Result<[i16; N], Refusal> {
    engine::filter(width, height, plate, setting, res, work)?;
    Ok(*res)
}

// Prints "NAME: level,level,.." or "NAME: refused NUMBER", and a newline.
pub(crate) fn print_plate<const N: usize>(
    rt: &impl Print,
    name: &str,
    answer: Result<[i16; N], Refusal>,
) -> io::Result<()> {
    print!(rt; "{name}")?;
    print_answer(rt, answer)
}

// The same after the name.
pub(crate) fn print_answer<const N: usize>(
    rt: &impl Print,
    answer: Result<[i16; N], Refusal>,
) -> io::Result<()> {
    print!(rt; ": ")?;
    match answer {
        Ok(levels) => print_levels(rt, &levels)?,
        Err(refusal) => print_refused(rt, refusal)?,
    }
    println!(rt)
}

pub(crate) fn print_refused(rt: &impl Print, refusal: Refusal) -> io::Result<()> {
    let number = refusal.number();
    print!(rt; "refused {number}")
}

// Parted by commas.
pub(crate) fn print_levels(rt: &impl Print, levels: &[i16]) -> io::Result<()> {
    for (i, level) in levels.iter().enumerate() {
        if 0 < i {
            print!(rt; ",")?;
        }
        print!(rt; "{level}")?;
    }
    Ok(())
}
