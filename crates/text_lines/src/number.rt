// Numbers, editions, and lists of numbers parted by commas.
ghost use Rattle.std.specs.Prelude.{◌≡◌, length};
ghost use Rattle.text_lines.specs.Format.{number, edition, parts, list};
ghost use Rattle.text_lines.specs.Answers.{number_read, whether, filled_by};

// The largest count of digits, and the largest number (document 01, section 6).
const MAX_DIGITS: usize = 6;

const MAX_NUMBER: usize = 65535;

const BASE: usize = 10;

// The number that these bytes are; none where they are no number. By hand: `parse` takes a sign too.
pub fn number_in(s: &[u8]) -> Option<usize>
    ensures { number_read result ≡ number s.now }
{
    if s.is_empty() || s.len() > MAX_DIGITS {
        return None;
    }
    let mut v = 0;
    for b in s {
        if !b.is_ascii_digit() {
            return None;
        }
        v = v * BASE + usize::from(*b - b'0');
    }
    (v <= MAX_NUMBER).then_some(v)
}

// The edition of the format that these bytes are, a single 1 or 2; none where they are another text.
pub fn edition_in(s: &[u8]) -> Option<usize>
    ensures { number_read result ≡ edition s.now }
{
    let [digit] = s else {
        return None;
    };
    match digit {
        b'1' => Some(1),
        b'2' => Some(2),
        _ => None,
    }
}

// Fills out with the numbers that these bytes list, and says whether they are a list of as many as it has
// places for. By hand, the cast that narrows: it is proved to fit, where `try_from` would answer a Result.
pub fn list_in(s: &[u8], out: &mut [u16]) -> bool
    ensures out_after { whether result out.new ≡ list (length out.old) s.now }
    ensures out_after_2 { out.new ≡ filled_by (parts s.now) out.old }
{
    let mut parts = s.split(|b| *b == b',');
    for place in out.iter_mut() {
        let Some(part) = parts.next() else {
            return false;
        };
        let Some(v) = number_in(part) else {
            return false;
        };
        *place = v as u16;
    }
    parts.next().is_none()
}
