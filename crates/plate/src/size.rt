// The sizes that a plate may have. The product is formed only after both sides are known to be small, so that
// it cannot wrap. Width and height go through every public function as two numbers, any numbers: refusal 1 is
// of those that are no size, so a type that has only the right ones would ask more of callers.
ghost use Rattle.std.specs.Prelude.{◌≡◌};
ghost use Rattle.plate.specs.Refusals.{bad_size};

// The largest width or height, and the largest number of pixels (document 01, section 1).
pub const MAX_SIDE: usize = 1024;

pub const MAX_PIXELS: usize = 65536;

// Whether refusal 1 forbids this size.
pub fn bad_size(width: usize, height: usize) -> bool
    ensures { result ≡ bad_size width height }
{
    width == 0
        || width > MAX_SIDE
        || height == 0
        || height > MAX_SIDE
        || width * height > MAX_PIXELS
}
