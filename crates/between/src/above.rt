// Which pixel is known between levels that are not in order.
ghost use Rattle.std.specs.Prelude.{◌≡◌, length};
ghost use Rattle.between.specs.Refusals.{first_above};
ghost use Rattle.between.specs.Lengths.{Finds, ReadTo};

// The first place whose lowest level is above its highest, if there is one. All levels before it have been
// read, so a proof knows of them that they have 16 bits.
pub(crate) fn first_above(lowest: &[i16], highest: &[i16]) -> Option<usize>
    requires { length lowest.now ≡ length highest.now }
    ensures value { Finds result lowest.now highest.now }
    ensures read_to { ReadTo (first_above lowest.now highest.now) lowest.now highest.now }
{
    for (x, low) in lowest.iter().enumerate() {
        if highest[x] < *low {
            return Some(x);
        }
    }
    None
}
