// Tests the calls that need no engine, by document 01's cases: making a setting, correcting a plate,
// stepping a walker. There are the edge words and gap counts of section 7 with the bounds of document
// 02, N1, one case for each refusal number of section 5 that these calls have and for N5's, what the walk
// of document 02, N4 holds after each pixel, and the directions' steps of section 2. Each case prints its name and what
// came back; the file stdout beside src/ has what the papers say.
#![tactic(auto)]

use correction::{correct, find_faults};
use plate::{Refusal, Setting, Walker};
use std::io;

fn main(rt: HostRuntime) -> io::Result<()> {
    edge_words(&rt)?;
    edge_readings(&rt)?;
    settings(&rt)?;
    size_refusals(&rt)?;
    length_refusals(&rt)?;
    value_refusals(&rt)?;
    judged_in_order(&rt)?;
    walk_to_late_correction(&rt)?;
    walk_to_late_reading(&rt)?;
    walk_without_bad_reading(&rt)?;
    walks(&rt)
}

// What stands behind a case's name: ": number place" and a newline; 0 0 where the call was accepted.
fn print_answer<T: Drop>(rt: &impl Print, answer: Result<T, Refusal>) -> io::Result<()> {
    match answer {
        Ok(_) => println!(rt; ": 0 0"),
        Err(refusal) => {
            let number = refusal.number();
            let place = refusal.place;
            println!(rt; ": {number} {place}")
        }
    }
}

fn print_case<T: Drop>(rt: &impl Print, name: &str, answer: Result<T, Refusal>) -> io::Result<()> {
    print!(rt; "{name}")?;
    print_answer(rt, answer)
}

// A plate of one pixel.
fn correct_pixel(reading: u16, word: u16) -> Result<(), Refusal> {
    correct(1, 1, &[reading], &[word], &mut [0])
}

// Beside the reading 0.
fn edge_words(rt: &impl Print) -> io::Result<()> {
    for word in [49152, 16383, 49151, 16384, 32768] {
        print!(rt; "word {word}")?;
        print_answer(rt, correct_pixel(0, word))?;
    }
    Ok(())
}

fn edge_readings(rt: &impl Print) -> io::Result<()> {
    for n in [16383, 16384] {
        print!(rt; "reading {n} word {n}")?;
        print_answer(rt, correct_pixel(n, n))?;
    }
    Ok(())
}

fn settings(rt: &impl Print) -> io::Result<()> {
    print_case(rt, "gaps 8 length 9", Setting::new(9, 8, 15, 0, 0))?;
    print_case(rt, "gaps 8 length 8", Setting::new(8, 8, 15, 0, 0))?;
    print_case(rt, "length 0", Setting::new(0, 0, 15, 0, 0))?;
    print_case(rt, "length 1025", Setting::new(1025, 0, 15, 0, 0))?;
    print_case(rt, "gaps 9", Setting::new(20, 9, 15, 0, 0))?;
    print_case(rt, "ways 0", Setting::new(4, 0, 0, 0, 0))?;
    print_case(rt, "ways 16", Setting::new(4, 0, 16, 0, 0))?;
    print_case(rt, "mode 2", Setting::new(4, 0, 15, 2, 0))?;
    print_case(rt, "ends 1", Setting::new(4, 0, 15, 0, 1))?;
    print_case(rt, "ends 2", Setting::new(4, 0, 15, 0, 2))?;
    print_case(rt, "mode 2 ends 2", Setting::new(4, 0, 15, 2, 2))?;
    print_case(rt, "all wrong", Setting::new(0, 9, 16, 2, 2))
}

fn size_refusals(rt: &impl Print) -> io::Result<()> {
    let zeros = [0; 6];
    let mut result = [0; 6];
    let sizes = [
        ("width 0", 0, 6),
        ("height 1025", 1, 1025),
        ("1024 x 65", 1024, 65),
    ];
    for (name, width, height) in sizes {
        print_case(
            rt,
            name,
            correct(width, height, &zeros, &zeros, &mut result),
        )?;
    }
    Ok(())
}

fn length_refusals(rt: &impl Print) -> io::Result<()> {
    let six = [0; 6];
    let five = [0; 5];
    let mut result = [0; 6];
    let mut short = [0; 5];
    print_case(
        rt,
        "readings short",
        correct(3, 2, &five, &six, &mut result),
    )?;
    print_case(rt, "words short", correct(3, 2, &six, &five, &mut result))?;
    print_case(rt, "result short", correct(3, 2, &six, &six, &mut short))
}

fn value_refusals(rt: &impl Print) -> io::Result<()> {
    let good = [1, 2, 3, 4, 5, 6];
    let readings = [1, 2, 3, 16384, 5, 20000];
    let zeros = [0; 6];
    let words = [0, 0, 49151, 0, 16384, 0];
    let mut result = [7; 6];
    print_case(
        rt,
        "reading 16384 fourth",
        correct(3, 2, &readings, &zeros, &mut result),
    )?;
    print_case(
        rt,
        "word 49151 third",
        correct(3, 2, &good, &words, &mut result),
    )?;
    if result[0] == 7 {
        println!(rt; "the result is as it was")?;
    }
    Ok(())
}

// A bad reading late on the plate wins over a bad correction early on it.
fn judged_in_order(rt: &impl Print) -> io::Result<()> {
    let readings = [0, 0, 0, 16384];
    let words = [32768, 0, 0, 0];
    print_case(
        rt,
        "late reading, early word",
        correct(2, 2, &readings, &words, &mut [0; 4]),
    )
}

fn print_first(rt: &impl Print, first: Option<usize>) -> io::Result<()> {
    match first {
        Some(place) => print!(rt; "{place}"),
        None => print!(rt; "none"),
    }
}

// What the walk over these pixels holds: ": " and the first bad reading and correction, or "none".
fn print_faults(rt: &impl Print, readings: &[u16], words: &[u16]) -> io::Result<()> {
    let faults = find_faults(readings, words);
    print!(rt; ": ")?;
    print_first(rt, faults.reading)?;
    print!(rt; " ")?;
    print_first(rt, faults.correction)?;
    println!(rt)
}

// A bad correction after a bad reading is held too, and later ones of either kind are not. Where the lists
// differ in length the walk ends with the shorter one.
fn walk_to_late_correction(rt: &impl Print) -> io::Result<()> {
    let readings = [5, 16384, 3, 20000];
    let words = [0, 0, 49151, 16384];
    for n in 0..5 {
        print!(rt; "after {n} of 4")?;
        print_faults(rt, &readings[..n], &words[..n])?;
    }
    print!(rt; "2 words alone")?;
    print_faults(rt, &readings, &words[..2])?;
    print!(rt; "1 reading alone")?;
    print_faults(rt, &readings[..1], &words)?;
    print_case(
        rt,
        "the four",
        correct(4, 1, &readings, &words, &mut [0; 4]),
    )
}

// A bad reading after a bad correction.
fn walk_to_late_reading(rt: &impl Print) -> io::Result<()> {
    let readings = [5, 3, 16384];
    let words = [16384, 0, 0];
    for n in 0..4 {
        print!(rt; "after {n} of 3")?;
        print_faults(rt, &readings[..n], &words[..n])?;
    }
    print_case(
        rt,
        "the three",
        correct(3, 1, &readings, &words, &mut [0; 3]),
    )
}

fn walk_without_bad_reading(rt: &impl Print) -> io::Result<()> {
    let readings = [5, 3];
    let words = [0, 16384];
    print!(rt; "after 2 of 2")?;
    print_faults(rt, &readings, &words)?;
    print_case(rt, "the two", correct(2, 1, &readings, &words, &mut [0; 2]))
}

// Where the four steps lead from this pixel of a plate of 3 x 3, or "leaves".
fn print_steps(rt: &impl Print, name: &str, direction: usize, place: usize) -> io::Result<()> {
    let walker = Walker {
        width: 3,
        height: 3,
        direction,
        place,
    };
    print!(rt; "{name}: ")?;
    for number in 0..4 {
        match walker.step(number) {
            Some(Walker { place, .. }) => print!(rt; "{place} ")?,
            None => print!(rt; "leaves ")?,
        }
    }
    println!(rt)
}

fn walks(rt: &impl Print) -> io::Result<()> {
    print_steps(rt, "north from 4", 1, 4)?;
    print_steps(rt, "east from 4", 2, 4)?;
    print_steps(rt, "north-east from 4", 4, 4)?;
    print_steps(rt, "south-east from 4", 8, 4)?;
    print_steps(rt, "north from 0", 1, 0)?;
    print_steps(rt, "south-east from 8", 8, 8)?;
    print_steps(rt, "no such way", 3, 4)?;
    print_steps(rt, "off the plate", 2, 9)
}
