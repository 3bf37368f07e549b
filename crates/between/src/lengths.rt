// Two lent buffers of one kind, judged as one.
ghost use Rattle.std.specs.Prelude.{◌≡◌};
ghost use Rattle.between.specs.Lengths.{common_length};

// The length that both have. By hand: where they differ 0, which no plate has, so that the common checks refuse
// it in their order; none would have to be turned into such a number for them.
pub(crate) fn common_length(a: usize, b: usize) -> usize
    ensures { result ≡ common_length a b }
{
    if a == b { a } else { 0 }
}
