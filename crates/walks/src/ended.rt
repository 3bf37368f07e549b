// What a walk counts for that ends at a pixel: its number, but no more than a path may end there. A trace's
// walks start at the picked pixel, so it is here, where they end, that the setting's `ends` is asked.
ghost use Rattle.std.specs.Prelude.{◌≡◌, min};
ghost use Rattle.theory.specs.BestWalks.{ended};

// By the pixel's number and its key.
pub(crate) fn ended_at(number: u16, key: u16, slack: u16) -> u16
    ensures { result ≡ min number (ended slack key) }
{
    number.min(key.max(slack))
}
