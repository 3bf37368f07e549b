// What the proved functions answer, told as numbers.
ghost use Rattle.std.specs.Prelude.{◌≡◌};
ghost use Rattle.plate.specs.Answers.{answered, told, traced_level};
ghost use Rattle.plate.specs.Telling.{number_of, place_of, value_after};
ghost use Rattle.diilvak.specs.Numbers.{direction_after};

use plate::{Refusal, Trace};

// The number of an answer: 0 where the call is done.
pub(crate) fn number_of<T: Copy>(answer: Result<T, Refusal>) -> usize
    ensures { result ≡ number_of (told answer) }
{
    match answer {
        Ok(_) => 0,
        Err(refusal) => refusal.number(),
    }
}

// The number of an answer, and its place in a lent number; both are 0 where the call is done.
pub(crate) fn tell(answer: Result<(), Refusal>, place: &mut usize) -> usize
    ensures value { result ≡ number_of (answered answer) }
    ensures place_after { place.new ≡ place_of (answered answer) }
{
    *place = match answer {
        Ok(()) => 0,
        Err(refusal) => refusal.place,
    };
    number_of(answer)
}

// The number of a trace, and, where it is done, its direction's bit and its level in lent numbers.
pub(crate) fn tell_trace(
    traced: Result<Trace, Refusal>,
    direction: &mut usize,
    level: &mut i16,
) -> usize
    ensures value { result ≡ number_of (traced_level traced) }
    ensures direction_after { direction.new ≡ direction_after traced direction.old }
    ensures level_after { level.new ≡ value_after (traced_level traced) level.old }
{
    if let Ok(trace) = traced {
        *direction = trace.direction;
        *level = trace.level;
    }
    number_of(traced)
}
