// What calls take as numbers, put together for the proved functions.
ghost use Rattle.std.specs.Prelude.{◌≡◌};
ghost use Rattle.diilvak.specs.Numbers.{setting_of};

use plate::Setting;

// The setting of five numbers, not judged here: every call that takes one does that. By hand: C hands the five
// over one by one (include/diilvak.h).
pub(crate) fn setting_of(
    length: usize,
    gaps: usize,
    directions: usize,
    mode: usize,
    ends: usize,
) -> Setting
    ensures { result ≡ setting_of length gaps directions mode ends }
{
    Setting {
        length,
        gaps,
        directions,
        mode,
        ends,
    }
}
