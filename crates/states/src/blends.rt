// Rows made of held ones, eight pixels at a time in all their planes. Three rows are read, each at a place of
// its own; of each plane the greatest of the three goes on to the next plane. Eights go by value (the crate
// eights), so that nothing has to be known of what overlaps, and the only branch is that of the loops. That the
// taps fit (BlendFits) stays a clause: it speaks of the buffer's length and of a pixel, so a type would hold the
// buffer that is lent on at each call, and be made anew at each pixel.
ghost use Rattle.std.specs.Prelude.{◌≡◌, ℕ, ◌+◌, ◌-◌, ◌*◌, ◌≤◌, ◌<◌, min, length, get_or};
ghost use Rattle.eights.specs.Turned.{turned, numbers, Standing};
ghost use Rattle.states.specs.Runs.{Between, Apart, greatest_at};
ghost use Rattle.states.specs.Rows.{RowPut, BlendFits, Blent, blended};

use eights::{NOTHING, greater, lower, turn, turn_all};
use plans::Row;
use std::array;

// Where pixel 0 of plane 0 finds its three numbers, and where it is.
#[derive(Clone, Copy)]
pub struct Taps {
    pub t0: usize,
    pub t1: usize,
    pub t2: usize,
    pub to: usize,
}

// The eight words from `at` on.
fn eight_at(s: &[u16], at: usize) -> [u16; 8]
    requires { at + 8 ≤ length s.now }
    ensures { (i : ℕ) → i < 8 → get_or result i 0 ≡ get_or s.now (at + i) 0 }
{
    array::from_fn(|i| s[at + i])
}

// The key at `at`, turned; past the last one nothing.
fn key_at(keys: &[u16], at: usize) -> u16
    ensures { turned result ≡ get_or keys.now at 0 }
{
    match keys.get(at) {
        Some(key) => turn(*key),
        None => NOTHING,
    }
}

// The eight keys from `at` on, turned; past the last one nothing.
fn keys_at(keys: &[u16], at: usize) -> [u16; 8]
    requires { at ≤ length keys.now }
    ensures { Standing result (λ (i : ℕ). get_or keys.now (at + i) 0) }
{
    if at + 8 <= keys.len() {
        return turn_all(eight_at(keys, at));
    }
    array::from_fn(|i| key_at(keys, at + i))
}

// Eight words come to `at`. By hand: by copy_from_slice they went through memory, and a row took a third more
// instructions.
fn put_eight(s: &mut [u16], at: usize, v: [u16; 8])
    requires { at + 8 ≤ length s.old }
    ensures { Between (λ (k : ℕ). turned (get_or v (k - at) 0)) (numbers s.old) (numbers s.new) at (at + 8) }
{
    for i in 0..8 {
        s[at + i] = v[i];
    }
}

// The greatest of the three, for eight pixels, x further on.
fn greatest_at(held: &[u16], taps: Taps, x: usize) -> [u16; 8]
    requires { (taps.t0 + x + 8 ≤ length held.now) × (taps.t1 + x + 8 ≤ length held.now) × (taps.t2 + x + 8 ≤ length held.now) }
    ensures { Standing result (λ (i : ℕ). greatest_at (numbers held.now) taps.t0 taps.t1 taps.t2 (x + i)) }
{
    greater(
        greater(eight_at(held, taps.t0 + x), eight_at(held, taps.t1 + x)),
        eight_at(held, taps.t2 + x),
    )
}

// Eight pixels of a row that has three planes, written out, since two gaps are asked for most often: all is read
// before the first store.
#[inline(always)]
fn blend_three(held: &mut [u16], key: [u16; 8], taps: Taps, x: usize, pitch: usize)
    requires { BlendFits 3 pitch x taps.t0 taps.t1 taps.t2 taps.to (length held.old) }
    ensures { (keys : ℕ → ℕ) → ((i : ℕ) → i < 8 → turned (get_or key i 0) ≡ keys (x + i)) → Blent (numbers held.old) (numbers held.new) keys 3 pitch taps.t0 taps.t1 taps.t2 taps.to x (x + 8) }
{
    let a = greatest_at(held, taps, x);
    let b = greatest_at(held, taps, x + pitch);
    let c = greatest_at(held, taps, x + 2 * pitch);
    put_eight(held, taps.to + x, lower(key, a));
    put_eight(held, taps.to + x + pitch, greater(lower(key, b), a));
    put_eight(held, taps.to + x + 2 * pitch, greater(lower(key, c), b));
}

// Eight pixels of a row in all its planes.
#[inline(always)]
fn blend_eight(held: &mut [u16], key: [u16; 8], taps: Taps, x: usize, pitch: usize, planes: usize)
    requires { BlendFits planes pitch x taps.t0 taps.t1 taps.t2 taps.to (length held.old) }
    ensures { (keys : ℕ → ℕ) → ((i : ℕ) → i < 8 → turned (get_or key i 0) ≡ keys (x + i)) → Blent (numbers held.old) (numbers held.new) keys planes pitch taps.t0 taps.t1 taps.t2 taps.to x (x + 8) }
{
    let mut below = [NOTHING; 8];
    for j in 0..planes {
        let o = x + j * pitch;
        let ahead = greatest_at(held, taps, o);
        put_eight(held, taps.to + o, greater(lower(key, ahead), below));
        below = ahead;
    }
}

// The pixels of a row, and up to seven more; where they end is returned. The number of planes is known when it is
// compiled, so that the test of it goes, and with one plane the loop over planes. By hand, here and below: the
// clause needs the end as a number (`Blent`), which a range by steps of eight does not tell.
fn fixed_run<const PLANES: usize>(
    held: &mut [u16],
    keys: &[u16],
    row: Row,
    taps: Taps,
    pitch: usize,
) -> usize
    requires lo_le_hi { (row.lo ≤ row.hi) × (row.at + row.hi + 7 ≤ length keys.now) }
    requires blend_fits { BlendFits PLANES pitch row.hi taps.t0 taps.t1 taps.t2 taps.to (length held.old) }
    ensures { (row.hi ≤ result) × Blent (numbers held.old) (numbers held.new) (λ (x : ℕ). get_or keys.now (row.at + x) 0) PLANES pitch taps.t0 taps.t1 taps.t2 taps.to row.lo result }
{
    let mut x = row.lo;
    while x < row.hi {
        let key = turn_all(eight_at(keys, row.at + x));
        if PLANES == 3 {
            blend_three(held, key, taps, x, pitch);
        } else {
            blend_eight(held, key, taps, x, pitch, PLANES);
        }
        x += 8;
    }
    x
}

// The same of a row that has any number of planes, where there may be no whole eight of keys. The two stay
// apart: as one function they would take the reading of the keys as a closure, and a contract for it.
fn several_run(
    held: &mut [u16],
    keys: &[u16],
    row: Row,
    taps: Taps,
    pitch: usize,
    planes: usize,
) -> usize
    requires lo_le_hi { (row.lo ≤ row.hi) × (row.at + row.hi ≤ length keys.now) }
    requires blend_fits { BlendFits planes pitch row.hi taps.t0 taps.t1 taps.t2 taps.to (length held.old) }
    ensures { (row.hi ≤ result) × Blent (numbers held.old) (numbers held.new) (λ (x : ℕ). get_or keys.now (row.at + x) 0) planes pitch taps.t0 taps.t1 taps.t2 taps.to row.lo result }
{
    let mut x = row.lo;
    while x < row.hi {
        let key = keys_at(keys, row.at + x);
        blend_eight(held, key, taps, x, pitch, planes);
        x += 8;
    }
    x
}

// The pixels of a row, by the way that is fastest for so many planes; the numbers of gaps that are asked for
// most often have one of their own. By hand: a const parameter is told here, so the switch is what makes it one.
pub(crate) fn blend_planes(
    held: &mut [u16],
    keys: &[u16],
    row: Row,
    taps: Taps,
    pitch: usize,
    planes: usize,
)
    requires lo_le_hi { (row.lo ≤ row.hi) × (row.at + row.hi ≤ length keys.now) }
    requires blend_fits { BlendFits planes pitch row.hi taps.t0 taps.t1 taps.t2 taps.to (length held.old) }
    ensures row_put { RowPut (numbers held.new) (taps.to - 1) planes pitch row.lo row.hi (blended (numbers held.old) pitch taps.t0 taps.t1 taps.t2 (λ (x : ℕ). get_or keys.now (row.at + x) 0)) }
    ensures apart { Apart (numbers held.old) (numbers held.new) (taps.to - 1) (taps.to - 1 + planes * pitch) }
{
    if row.at + row.hi + 7 <= keys.len() {
        if planes == 1 {
            fixed_run::<1>(held, keys, row, taps, pitch);
            return;
        }
        if planes == 3 {
            fixed_run::<3>(held, keys, row, taps, pitch);
            return;
        }
    }
    several_run(held, keys, row, taps, pitch, planes);
}
