// Where the value of a line stands: the newline that ends the line is found, and its name is compared.
ghost use Rattle.std.specs.Prelude.{◌≡◌, length, drop};
ghost use Rattle.basics.specs.Lists.{first_of};
ghost use Rattle.text_lines.specs.Format.{is, named};
ghost use Rattle.text_lines.specs.Answers.{value_read, Inside};

// Where the value of a line stands: its first byte, and the newline behind it.
#[derive(Clone, Copy)]
pub struct Value {
    pub from: usize,
    pub end: usize,
}

// How many bytes stand before the first b.
fn find(b: u8, s: &[u8]) -> usize
    ensures { result ≡ first_of (is b) s.now }
{
    s.iter().position(|x| *x == b).unwrap_or(s.len())
}

// The value of the line at this place, if it has this name and a newline ends it.
pub fn value_at(s: &[u8], name: &[u8], at: usize) -> Option<Value>
    ensures result_value { value_read s.now result ≡ named name.now (drop at s.now) }
    ensures inside { Inside at (length s.now) result }
{
    if at >= s.len() {
        return None;
    }
    let end = at + find(b'\n', &s[at..]);
    if end >= s.len() {
        return None;
    }
    if !s[at..end].starts_with(name) {
        return None;
    }
    Some(Value {
        from: at + name.len(),
        end,
    })
}
