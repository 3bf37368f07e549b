// What the doors ask before they do anything: is there such a direction on a plate of this size, with paths
// of this length, and have the lent buffers the lengths that are asked?
ghost use Rattle.std.specs.Prelude.{◌≡◌};
ghost use Rattle.directions.specs.Doors.{fits, opens, keeps, lays};

use crate::frame::Way;
use plate::Setting;

// Whether the plate has paths of the setting's length in the direction at this index, within the limits.
pub(crate) fn fits_plate(way: Way, setting: Setting) -> bool
    ensures { result ≡ fits way.width way.height setting way.index }
{
    if setting.length < 1 {
        return false;
    }
    if setting.length > Setting::MAX_LENGTH {
        return false;
    }
    if setting.gaps > Setting::MAX_GAPS {
        return false;
    }
    setting.length <= plate::span_of(way.width, way.height, way.index)
}

// The same, and the lengths of plate, result and work.
pub(crate) fn opens_plate(way: Way, setting: Setting, plate: usize, res: usize, work: usize) -> bool
    ensures { result ≡ opens way.width way.height setting way.index plate res work }
{
    if !fits_plate(way, setting) {
        return false;
    }
    let pixels = way.width * way.height;
    if plate != pixels {
        return false;
    }
    if res != pixels {
        return false;
    }
    4 * (setting.gaps + 1) * pixels <= work
}

// Whether there is such a direction, and its keys can be kept by lines, or by ranks.
pub(crate) fn keeps_keys(way: Way, ranked: bool) -> bool
    ensures { result ≡ keeps way.width way.height way.index ranked }
{
    if plate::span_of(way.width, way.height, way.index) < 1 {
        return false;
    }
    if !ranked {
        return true;
    }
    let frame = way.frame();
    frame.across <= frame.lines
}

// The same, and the lengths of plate and work.
pub(crate) fn lays_keys(way: Way, ranked: bool, plate: usize, work: usize) -> bool
    ensures { result ≡ lays way.width way.height way.index ranked plate work }
{
    if !keeps_keys(way, ranked) {
        return false;
    }
    let pixels = way.width * way.height;
    if plate != pixels {
        return false;
    }
    pixels <= work
}
