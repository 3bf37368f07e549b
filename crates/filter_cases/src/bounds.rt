// Plates known between two levels (document 02, N7): the worked rows, a lowest and a highest one each,
// filtered to the east.
use crate::printing::{print_levels, print_refused};
use crate::settings::{CLOSING, EAST, ON_CRACK, OPENING, setting};
use plate::Setting;
use std::io;

// Prints "NAME: level,level,.. to level,level,.." or "NAME: refused NUMBER at PLACE", and a newline.
fn filter_pair(
    rt: &impl Print,
    name: &str,
    lowest: &[i16; 4],
    highest: &[i16; 4],
    s: Setting,
) -> io::Result<()> {
    let mut low = [0; 4];
    let mut high = [0; 4];
    let mut work = [4321; 40];
    print!(rt; "{name}: ")?;
    match between::filter_between(4, 1, lowest, highest, s, &mut low, &mut high, &mut work) {
        Ok(()) => {
            print_levels(rt, &low)?;
            print!(rt; " to ")?;
            print_levels(rt, &high)?;
        }
        Err(refusal) => {
            let place = refusal.place;
            print_refused(rt, refusal)?;
            print!(rt; " at {place}")?;
        }
    }
    println!(rt)
}

pub(crate) fn bound_rows(rt: &impl Print) -> io::Result<()> {
    let opening = setting(OPENING, EAST, 4, 1);
    let closing = setting(CLOSING, EAST, 4, 1);
    let ended = Setting {
        ends: ON_CRACK,
        ..opening
    };
    // there are no such ends
    let wrong = Setting { ends: 2, ..opening };
    let five = Setting {
        length: 5,
        ..opening
    };
    let q = [9, 5, 12, 8];
    let above = [9, 6, 12, 9];
    filter_pair(rt, "Q and above", &q, &above, opening)?;
    filter_pair(rt, "Q and above, closing", &q, &above, closing)?;
    let first = [5, 9, 12, 8];
    let above_first = [7, 9, 13, 8];
    filter_pair(
        rt,
        "gap first and above, ends 1",
        &first,
        &above_first,
        ended,
    )?;
    let below = [9, 4, 12, 7];
    filter_pair(rt, "Q and below", &q, &below, opening)?;
    filter_pair(rt, "Q and below, ends 2", &q, &below, wrong)?;
    filter_pair(rt, "Q and above by 5", &q, &above, five)
}
