// The pixel that is traced, on a numbered plate, and the key of its entry.
ghost use Rattle.std.specs.Prelude.{◌≡◌};
ghost use Rattle.entering.specs.Refusals.{key_of};

use book::Key;
use plate::Setting;

// The plate's number in the book, and the place on it.
#[derive(Clone, Copy)]
#[repr(C)]
pub struct Pixel {
    pub plate: u16,
    pub place: usize,
}

// By hand: it takes two values, and `From` of a pair would be no plainer.
pub(crate) fn key_of(setting: Setting, pixel: Pixel) -> Key
    ensures { result ≡ key_of setting pixel }
{
    Key {
        plate: pixel.plate,
        place: pixel.place,
        mode: setting.mode,
    }
}
