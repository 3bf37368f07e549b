// The entries that a call takes out: those of a key, or those of a serial number. An enum and no closure, since
// the definitions `is_meant` and `others` speak of it.
ghost use Rattle.std.specs.Prelude.{◌≡◌};
ghost use Rattle.book.specs.Entries.{is_meant};

use crate::entry::{Entry, Key};

#[derive(Clone, Copy)]
pub enum Target {
    OfKey(Key),
    OfSerial(u32),
}

// Whether an entry is one of them.
pub(crate) fn is_meant(target: Target, entry: Entry) -> bool
    ensures { result ≡ is_meant target entry }
{
    match target {
        Target::OfKey(key) => Key::from(entry) == key,
        Target::OfSerial(serial) => entry.serial == serial,
    }
}
