// The two figures as one number each, and their difference.
ghost use Rattle.std.specs.Prelude.{ℕ, pos, ◌-ℤ◌};
ghost use Rattle.meter.specs.Eighths.{IsEighths};

// The means of both figures, in whole eighths.
#[derive(Clone, Copy)]
pub(crate) struct Means {
    pub lamp: f32,
    pub dark: f32,
}

impl Means {
    // Dark less lamp, which is not rounded.
    pub(crate) fn difference(self) -> f32
        ensures { (l d : ℕ) → IsEighths self.lamp (pos l) → IsEighths self.dark (pos d) → IsEighths result (pos d -ℤ pos l) }
    {
        self.dark - self.lamp
    }
}
