// The arithmetic of levels: each function is total, and none can wrap. By hand in `key_of` and `level_of`, the
// casts that narrow: each is proved to fit, where `try_from` would answer a Result.
ghost use Rattle.std.specs.Prelude.{◌≡◌};
ghost use Rattle.plate.specs.Levels.{signed, mirror, key, level};

// A correction word in two's complement: word 65534 is the correction −2.
pub fn signed_correction(word: u16) -> i32
    ensures { result ≡ signed word }
{
    i32::from(word.cast_signed())
}

// Light and dark exchanged. −1 − v, since −(−32,768) would not fit.
pub fn mirrored(v: i16) -> i16
    ensures { result ≡ mirror v }
{
    -1 - v
}

// How far a level stands above the lowest: the engine compares and stores levels as these numbers.
pub fn key_of(v: i16) -> u16
    ensures { result ≡ key v }
{
    (i32::from(v) + 32768) as u16
}

// The level with this key.
pub fn level_of(k: u16) -> i16
    ensures { result ≡ level k }
{
    (i32::from(k) - 32768) as i16
}
