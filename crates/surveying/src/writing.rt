// Writing the parts of a text into a lent buffer, one behind the other: a writer has the buffer and the
// place behind what it wrote, so that two writes in a row are one.
//
// Numbers are printed by hand: `write!` promises which bytes it wrote only where it answers Ok, and never
// that it does, while `survey` promises the whole answer (Surveyed).
ghost use Rattle.std.specs.Prelude.{◌≡◌, ℕ, List, [], ◌∷◌, map};
ghost use Rattle.survey_text.specs.Printing.{decimal, signed_decimal, parted, line};
ghost use Rattle.surveying.specs.Buffers.{Room, Written};

#[derive(Drop)]
pub(crate) struct Writer<'a> {
    pub(crate) out: &'a mut [u8],
    pub(crate) at: usize,
}

// What stands on a line behind its name.
pub(crate) trait Printed: Copy {
    ghost text: { Self → List ℕ };

    fn print(self, w: &mut Writer)
        requires { Room (text self) w.old }
        ensures { Written (text self) w.old w.new };
}

impl Printed for usize {
    ghost text = { decimal };

    fn print(self, w: &mut Writer) {
        w.number(self);
    }
}

impl Printed for i16 {
    ghost text = { signed_decimal };

    fn print(self, w: &mut Writer) {
        w.level(self);
    }
}

// The items parted by commas.
impl<T: Printed> Printed for &[T] {
    ghost text = { λ items. parted (map T.text items.now) };

    fn print(self, w: &mut Writer) {
        w.list(self);
    }
}

impl Writer<'_> {
    fn put(&mut self, b: u8)
        requires { Room (b ∷ []) self.old }
        ensures { Written (b ∷ []) self.old self.new }
    {
        self.out[self.at] = b;
        self.at += 1;
    }

    fn text(&mut self, text: &[u8])
        requires { Room text.now self.old }
        ensures { Written text.now self.old self.new }
    {
        let end = self.at + text.len();
        self.out[self.at..end].copy_from_slice(text);
        self.at = end;
    }

    fn number(&mut self, n: usize)
        requires { Room (decimal n) self.old }
        ensures { Written (decimal n) self.old self.new }
    {
        if n < 10 {
            return self.put(b'0' + n as u8);
        }
        self.number(n / 10);
        self.put(b'0' + (n % 10) as u8);
    }

    fn level(&mut self, level: i16)
        requires { Room (signed_decimal level) self.old }
        ensures { Written (signed_decimal level) self.old self.new }
    {
        if level < 0 {
            self.put(b'-');
        }
        self.number(usize::from(level.unsigned_abs()));
    }

    fn list<T: Printed>(&mut self, items: &[T])
        requires { Room (parted (map T.text items.now)) self.old }
        ensures { Written (parted (map T.text items.now)) self.old self.new }
    {
        let Some((first, others)) = items.split_first() else {
            return;
        };
        first.print(self);
        for item in others {
            self.put(b',');
            item.print(self);
        }
    }

    // NAME, the value and a newline.
    pub(crate) fn line<T: Printed>(&mut self, name: &[u8], value: T)
        requires { Room (line name.now (T.text value)) self.old }
        ensures { Written (line name.now (T.text value)) self.old self.new }
    {
        self.text(name);
        value.print(self);
        self.put(b'\n');
    }
}
