// The best numbers of a direction, brought back from their rows to the plate: its levels rise to them.
ghost use Rattle.std.specs.Prelude.{◌≡◌, ◌+◌, ◌*◌, ◌≤◌, ◌<◌, max, length};
ghost use Rattle.plate.specs.Levels.{key};
ghost use Rattle.directions.specs.Gathering.{Risen};

use crate::kept::Kept;

// A level, raised to a key.
fn raised(v: i16, k: u16) -> i16
    ensures { key result ≡ max (key v) k }
{
    plate::level_of(plate::key_of(v).max(k))
}

// The levels of a row of numbers rise to them.
// By hand: x is counted and the row no slice of its own, since x tells the pixel's place as well as its number.
fn raise_row(res: &mut [i16], best: &[u16], kept: Kept, row: usize)
    requires { (row < kept.frame.lines) × (kept.frame.lines * kept.frame.across ≤ length best.now) × (length res.old ≡ kept.frame.lines * kept.frame.across) }
    ensures { Risen kept.frame kept.ranked best.now res.old res.new (row * kept.frame.across) (row * kept.frame.across + kept.frame.across) }
{
    let at = row * kept.frame.across;
    for x in 0..kept.frame.across {
        let p = kept.place_of(row, x);
        res[p] = raised(res[p], best[at + x]);
    }
}

// All of them.
pub(crate) fn raise(res: &mut [i16], best: &[u16], kept: Kept)
    requires { (kept.frame.lines * kept.frame.across ≤ length best.now) × (length res.old ≡ kept.frame.lines * kept.frame.across) }
    ensures { Risen kept.frame kept.ranked best.now res.old res.new 0 (kept.frame.lines * kept.frame.across) }
{
    for row in 0..kept.frame.lines {
        raise_row(res, best, kept, row);
    }
}
