// The keys of a plate, row after row as the sweeps read them: at the beginning of the work buffer.
ghost use Rattle.std.specs.Prelude.{◌≡◌, ℕ, ◌+◌, ◌*◌, ◌≤◌, ◌<◌, length};
ghost use Rattle.basics.specs.Cases.{EitherBy};
ghost use Rattle.states.specs.Runs.{Between};
ghost use Rattle.directions.specs.Numbers.{place_kept, keys_by, SmallKept};
ghost use Rattle.directions.specs.Doors.{lays, place_kept_by, Laid};

use crate::fits::{keeps_keys, lays_keys};
use crate::frame::Way;
use crate::kept::Kept;

// One row of keys.
// By hand: x is counted and the row no slice of its own, since x tells the pixel's place as well as its key's.
fn fill_key_row(work: &mut [u16], plate: &[i16], kept: Kept, mode: usize, row: usize)
    requires { (row < kept.frame.lines) × (kept.frame.lines * kept.frame.across ≤ length work.old) × (length plate.now ≡ kept.frame.lines * kept.frame.across) }
    ensures between { Between (λ (q : ℕ). keys_by mode plate.now (place_kept kept.frame kept.ranked q)) work.old work.new (row * kept.frame.across) (row * kept.frame.across + kept.frame.across) }
    ensures small_kept { SmallKept plate.now kept.frame kept.ranked (row * kept.frame.across) (row * kept.frame.across + kept.frame.across) }
{
    let at = row * kept.frame.across;
    for x in 0..kept.frame.across {
        let p = kept.place_of(row, x);
        work[at + x] = frames::key_by(mode, plate[p]);
    }
}

// All keys.
pub(crate) fn fill_keys(work: &mut [u16], plate: &[i16], kept: Kept, mode: usize)
    requires { (kept.frame.lines * kept.frame.across ≤ length work.old) × (length plate.now ≡ kept.frame.lines * kept.frame.across) }
    ensures between { Between (λ (q : ℕ). keys_by mode plate.now (place_kept kept.frame kept.ranked q)) work.old work.new 0 (kept.frame.lines * kept.frame.across) }
    ensures small_kept { SmallKept plate.now kept.frame kept.ranked 0 (kept.frame.lines * kept.frame.across) }
{
    for row in 0..kept.frame.lines {
        fill_key_row(work, plate, kept, mode, row);
    }
}

// The keys of a plate as the direction at this index reads them, by lines or by ranks; or false, and nothing
// is written.
pub fn lay_keys(
    work: &mut [u16],
    plate: &[i16],
    width: usize,
    height: usize,
    index: usize,
    ranked: bool,
    mode: usize,
) -> bool
    ensures value { result ≡ lays width height index ranked (length plate.now) (length work.old) }
    ensures either { EitherBy result (Laid width height index ranked mode plate.now work.old work.new) (work.new ≡ work.old) }
{
    let way = Way {
        width,
        height,
        index,
    };
    if !lays_keys(way, ranked, plate.len(), work.len()) {
        return false;
    }
    let frame = way.frame();
    fill_keys(work, plate, Kept { frame, ranked }, mode);
    true
}

// The place of the pixel whose key stands at q, of the direction at this index; 0 where there is none.
// By hand: the definition `place_kept_by` (specs/Doors.antt) gives a place of whatever is asked.
pub fn place_kept(width: usize, height: usize, index: usize, ranked: bool, q: usize) -> usize
    ensures { result ≡ place_kept_by width height index ranked q }
{
    let way = Way {
        width,
        height,
        index,
    };
    if !keeps_keys(way, ranked) {
        return 0;
    }
    if q >= width * height {
        return 0;
    }
    let frame = way.frame();
    Kept { frame, ranked }.place_at(q)
}
