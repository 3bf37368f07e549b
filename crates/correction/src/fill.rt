// The levels of a plate whose readings and corrections have been judged.
ghost use Rattle.std.specs.Prelude.{◌≡◌, false, ◌≤◌, length};
ghost use Rattle.basics.specs.Lists.{first_of};
ghost use Rattle.plate.specs.Levels.{corrected, corrected_plate};
ghost use Rattle.plate.specs.Refusals.{bad_reading, bad_correction};

// One corrected level; within the bounds the sum has 16 bits. By hand, the cast that narrows: it is proved to fit,
// where `try_from` would answer a Result.
fn corrected_level(reading: u16, word: u16) -> i16
    requires reading_value { bad_reading reading ≡ false }
    requires word_value { bad_correction word ≡ false }
    ensures { result ≡ corrected reading word }
{
    (i32::from(reading) + plate::signed_correction(word)) as i16
}

// Every place of result from its reading and its word, all of which are good.
pub(crate) fn fill(readings: &[u16], words: &[u16], res: &mut [i16])
    requires readings_len { length readings.now ≡ length words.now }
    requires readings_len_2 { length readings.now ≡ length res.old }
    requires readings_len_bound { length readings.now ≤ first_of bad_reading readings.now }
    requires words_len_bound { length words.now ≤ first_of bad_correction words.now }
    ensures { res.new ≡ corrected_plate readings.now words.now }
{
    for i in 0..readings.len() {
        res[i] = corrected_level(readings[i], words[i]);
    }
}
