// An entry of the book, and its key.
ghost use Rattle.std.specs.Prelude.{◌≡◌};

// The plate's number, the place of a pixel on it and the mode: what an entry is about. At most one entry of a
// key stands in a book that calls have filled.
#[derive(Clone, Copy, PartialEq, Eq)]
pub struct Key {
    pub plate: u16,
    pub place: usize,
    pub mode: usize,
}

// A finding with its serial number: the key, and the level and the direction (its bit; document 01: way) that
// the trace has found.
#[derive(Clone, Copy, Default)]
#[repr(C)]
pub struct Entry {
    pub serial: u32,
    pub plate: u16,
    pub place: usize,
    pub mode: usize,
    pub level: i16,
    pub direction: usize,
}

impl From<Entry> for Key {
    ghost from_gives = { λ e k. k ≡ record { plate = e.plate; place = e.place; mode = e.mode } };

    fn from(entry: Entry) -> Key {
        Key {
            plate: entry.plate,
            place: entry.place,
            mode: entry.mode,
        }
    }
}
