// The numbers that the meter reports: which of them it may, and the mean of two.
ghost use Rattle.std.specs.Prelude.{◌≡◌, ◌+◌, false, not, pos};
ghost use Rattle.std.specs.Float.Ieee.{eq};
ghost use Rattle.std.specs.Float.{float_zero, two_to, ◌<ᶠ◌, ◌≤ᶠ◌, trunc, binary32};
ghost use Rattle.meter.specs.Numbers.{quarters_of, bad_number};
ghost use Rattle.meter.specs.Eighths.{IsEighths};

// 3 * 2^22: the middle of the range from 2^23 to 2^24, in which floats are 1 apart.
const ONE_APART: f32 = 12582912.0;

// Whether y has no fraction, for a y that is small enough for the sum to lie in that range: there a fraction is
// rounded away, and a whole number is kept. By hand in place of `trunc`, which also has to see to large numbers and
// to the sign, and took half of the time of a call.
fn is_whole(y: f32) -> bool
    ensures { float_zero ≤ᶠ y → y <ᶠ two_to 22 → result ≡ eq y (trunc binary32 y) }
{
    y == y + ONE_APART - ONE_APART
}

// Whether x is a whole count of quarters from 0 to 8,192. In this range four times x is exact, so x is one
// exactly if that has no fraction. −0 compares as 0, and a NaN passes no comparison.
pub(crate) fn is_quarters(x: f32) -> bool
    ensures { result ≡ not (bad_number x) }
{
    x >= 0.0 && x <= 8192.0 && is_whole(x * 4.0)
}

// The mean of two counts of quarters: neither the sum nor the half is rounded.
pub(crate) fn mean(x: f32, y: f32) -> f32
    ensures { bad_number x ≡ false → bad_number y ≡ false → IsEighths result (pos (quarters_of x + quarters_of y)) }
{
    (x + y) / 2.0
}
