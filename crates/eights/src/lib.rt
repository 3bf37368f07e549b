// Eight numbers of 16 bits at once, as one register of the processor holds them.
//
// What is held has its highest bit turned: the greater of two such words is that of two signed ones, for
// which there is one instruction where others need two or three. Eights go by value, and each function makes
// an array place by place, and neither reads nor writes memory of others; so the compiler makes one
// instruction of it, without a test whether anything overlaps.
#![tactic(auto)]

ghost use Rattle.std.specs.Prelude.{◌≡◌, ℕ, min, max, get_or};
ghost use Rattle.eights.specs.Turned.{turned, Standing};

use std::{array, cmp};

// The lowest number, turned.
pub const NOTHING: u16 = 32768;

// A number with its highest bit turned; turned again it is as it was. By hand, in place of `a ^ NOTHING`: the
// must-fail edit `middle_not_turned_down` is an edit of the test, so the test stays.
pub fn turn(a: u16) -> u16
    ensures { (result ≡ turned a) × (turned result ≡ a) }
{
    if a < NOTHING {
        a + NOTHING
    } else {
        a - NOTHING
    }
}

// The greater of two turned numbers, and the lower.
fn greater_of(a: u16, b: u16) -> u16
    ensures { turned result ≡ max (turned a) (turned b) }
{
    cmp::max_by_key(a, b, |v| turn(*v))
}

fn lower_of(a: u16, b: u16) -> u16
    ensures { turned result ≡ min (turned a) (turned b) }
{
    cmp::min_by_key(a, b, |v| turn(*v))
}

// Eight numbers turned.
pub fn turn_all(a: [u16; 8]) -> [u16; 8]
    ensures { Standing result (λ (i : ℕ). get_or a i 0) }
{
    array::from_fn(|i| turn(a[i]))
}

// Of each two the greater.
pub fn greater(a: [u16; 8], b: [u16; 8]) -> [u16; 8]
    ensures { Standing result (λ (i : ℕ). max (turned (get_or a i 0)) (turned (get_or b i 0))) }
{
    array::from_fn(|i| greater_of(a[i], b[i]))
}

// Of each two the lower.
pub fn lower(a: [u16; 8], b: [u16; 8]) -> [u16; 8]
    ensures { Standing result (λ (i : ℕ). min (turned (get_or a i 0)) (turned (get_or b i 0))) }
{
    array::from_fn(|i| lower_of(a[i], b[i]))
}
