// The order of levels, by the mode: a light crack is high, a dark one is high in the mirror.
// By hand: the mode stays a number and no enum, since it is the setting's, which a C caller fills in, and has
// a meaning whatever it is.
ghost use Rattle.std.specs.Prelude.{◌≡◌};
ghost use Rattle.frames.specs.Keys.{key_by, level_by};

// How far a level stands above the lowest, or in another mode than 0 how far its mirror does.
pub fn key_by(mode: usize, v: i16) -> u16
    ensures { result ≡ key_by mode v }
{
    match mode {
        0 => plate::key_of(v),
        _ => plate::key_of(plate::mirrored(v)),
    }
}

// The level that has this key by the mode.
pub fn level_by(mode: usize, key: u16) -> i16
    ensures { result ≡ level_by mode key }
{
    let level = plate::level_of(key);
    match mode {
        0 => level,
        _ => plate::mirrored(level),
    }
}
