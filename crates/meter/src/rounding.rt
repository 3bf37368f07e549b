// From eighths to a whole level, and from the level to its word.
ghost use Rattle.std.specs.Prelude.{◌≡◌, ℤ};
ghost use Rattle.meter.specs.Corrections.{rounded, word_of};
ghost use Rattle.meter.specs.Eighths.{IsEighths, InEighths};

// The nearest level, halves away from zero. It is small, so 16 bits hold it; −0 they don't, and the sum makes it 0.
pub(crate) fn rounded(d: f32) -> i16
    requires { InEighths d }
    ensures { (z : ℤ) → IsEighths d z → result ≡ rounded z }
{
    (d.round() + 0.0) as i16
}

// The 16-bit word of a level, in two's complement: −1 is 65535.
pub(crate) fn word_of(level: i16) -> u16
    ensures { result ≡ word_of level }
{
    level.cast_unsigned()
}
