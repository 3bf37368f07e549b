// The faults of a plate of readings and corrections, found in one walk that takes each reading with its
// correction (document 02, N4).
ghost use Rattle.std.specs.Prelude.{◌≡◌, min, length};
ghost use Rattle.plate.specs.Refusals.{bad_reading, bad_correction};
ghost use Rattle.correction.specs.Faults.{faults_after};

// The largest reading, and the least and the largest correction (document 02, N1).
pub const MAX_READING: u16 = 16383;

pub const MIN_CORRECTION: i32 = -16384;

pub const MAX_CORRECTION: i32 = 16383;

// The faults of the pixels so far: the first place with a bad reading, and the first with a bad correction. Each
// kind is held by itself, so that neither hides the other.
#[derive(Clone, Copy, Debug, PartialEq, Eq)]
pub struct Faults {
    pub reading: Option<usize>,
    pub correction: Option<usize>,
}

fn is_bad_reading(reading: u16) -> bool
    ensures { result ≡ bad_reading reading }
{
    reading > MAX_READING
}

fn is_bad_correction(word: u16) -> bool
    ensures { result ≡ bad_correction word }
{
    let correction = plate::signed_correction(word);
    correction < MIN_CORRECTION || correction > MAX_CORRECTION
}

// The walk. It goes on to the last reading that has a word, whatever it finds, since a bad reading late on
// the plate wins over a bad correction early on it.
pub fn find_faults(readings: &[u16], words: &[u16]) -> Faults
    ensures { result ≡ faults_after (min (length readings.now) (length words.now)) readings.now words.now }
{
    let mut faults = Faults {
        reading: None,
        correction: None,
    };
    for i in 0..readings.len().min(words.len()) {
        let bad_reading = is_bad_reading(readings[i]);
        let bad_correction = is_bad_correction(words[i]);
        // A good pixel leaves the state alone, since copying it each time would cost more than judging. An
        // earlier fault stays the first.
        if bad_reading | bad_correction {
            faults = Faults {
                reading: faults.reading.or(bad_reading.then_some(i)),
                correction: faults.correction.or(bad_correction.then_some(i)),
            };
        }
    }
    faults
}
