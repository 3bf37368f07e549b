// Plates known between two levels (document 02, N7): of a lowest and a highest plate the lowest and the
// highest filtered plate.
//
// These are the filtered lowest and the filtered highest plate, in both modes, since filtering keeps the
// order of plates. So the call is two filters; what it adds is that all checks of both, and its own, come
// before the first store.
#![tactic(auto)]

ghost use Rattle.std.specs.Prelude.{◌≡◌, length};
ghost use Rattle.plate.specs.Opening.{filtered};
ghost use Rattle.plate.specs.Refusals.{IfAccepted};
ghost use Rattle.plate.specs.Answers.{answered, result_after, WorkAfter};
ghost use Rattle.theory.specs.Between.{Bounds};
ghost use Rattle.between.specs.Refusals.{between_verdict};

mod above;
mod lengths;

use crate::above::first_above;
use crate::lengths::common_length;
use plate::{Fills, Lent, Reason, Refusal, Setting};

// Fills low and high with the filtered lowest and the filtered highest plate, or refuses (1 to 8, 18, 20)
// before the first store: then all lent buffers are as they were. Both filters work in the one work buffer,
// of at least 4 * (gaps + 1) * width * height numbers, and what is left in it is free.
pub fn filter_between(
    width: usize,
    height: usize,
    lowest: &[i16],
    highest: &[i16],
    setting: Setting,
    low: &mut [i16],
    high: &mut [i16],
    work: &mut [u16],
) -> Result<(), Refusal>
    ensures result_value { answered result ≡ between_verdict width height setting lowest.now highest.now (length low.old) (length high.old) (length work.old) }
    ensures low_after { low.new ≡ result_after result (filtered setting width height lowest.now) low.old }
    ensures high_after { high.new ≡ result_after result (filtered setting width height highest.now) high.old }
    ensures work_after { WorkAfter result work.old work.new }
    ensures if_accepted { IfAccepted (answered result) (Bounds setting width height lowest.now highest.now low.new high.new) }
{
    let lent = Lent {
        input: common_length(lowest.len(), highest.len()),
        fills: Fills::Result,
        filled: common_length(low.len(), high.len()),
        work: work.len(),
    };
    plate::judge(width, height, setting, lent)?;
    Reason::Bounds.refuse_at(first_above(lowest, highest))?;
    // Each filter's own checks are among those that have passed: neither refuses. The answer has a line of its own, so
    // that an edit can change it alone (must-fail/done_told_as_refused).
    engine::filter(width, height, lowest, setting, low, work)?;
    engine::filter(width, height, highest, setting, high, work)?;
    Ok(())
}
