// All checks of a trace, in the table's order, before anything is written. What enters a trace in a book asks
// here first, since its own checks come after these and before the first store.
ghost use Rattle.std.specs.Prelude.{◌≡◌, Some, Err, MatchResult};
ghost use Rattle.plate.specs.Refusals.{Clear, judged, trace_checks};
ghost use Rattle.plate.specs.Answers.{answered};
ghost use Rattle.headings.specs.Usable.{FirstUsable};

use headings::first_usable;
use plate::{Fills, Lent, Reason, Refusal, Setting};

// The index of the first direction in which a trace at this place can look, by a plate, a path and a work buffer
// of these lengths; or refuses (1 to 8, 18, 11, 12).
pub(crate) fn first_direction(
    width: usize,
    height: usize,
    setting: Setting,
    at: usize,
    input: usize,
    filled: usize,
    work: usize,
) -> Result<usize, Refusal>
    ensures { MatchResult result (λ first. Clear (trace_checks width height setting input at filled work) × FirstUsable width height setting (Some first)) (λ r. answered (Err r) ≡ judged (trace_checks width height setting input at filled work) tt) }
{
    let lent = Lent {
        input,
        fills: Fills::Path,
        filled,
        work,
    };
    plate::judge(width, height, setting, lent)?;
    Reason::Place.refuse_if(at >= input)?;
    first_usable(width, height, setting).ok_or(Refusal {
        reason: Reason::NoPath,
        place: 0,
    })
}

// Refuses (1 to 8, 18, 11, 12), or is done: then a trace at this place is accepted, by a plate, a path and a
// work buffer of these lengths.
pub fn judge_trace(
    width: usize,
    height: usize,
    setting: Setting,
    at: usize,
    input: usize,
    filled: usize,
    work: usize,
) -> Result<(), Refusal>
    ensures { answered result ≡ judged (trace_checks width height setting input at filled work) tt }
{
    first_direction(width, height, setting, at, input, filled, work)?;
    Ok(())
}
