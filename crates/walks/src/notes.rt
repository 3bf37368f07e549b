// The best walks of a state, noted for every number of steps and of gaps: the best number of any pixel that
// the walks lead to, as far as a path may end there.
ghost use Rattle.std.specs.Prelude.{◌≡◌, ℕ, ◌+◌, ◌*◌, ◌≤◌, ◌<◌, min, length, get_or};
ghost use Rattle.theory.specs.BestWalks.{ended};
ghost use Rattle.plans.specs.Plans.{rows_in, steps_at, row_size, state_size, keys_size};
ghost use Rattle.walks.specs.Noting.{Highest, Lifted, FromRow, FromState, steps_past, row_ended};
ghost use Rattle.walks.specs.Endings.{ended_in};

use crate::ended::ended_at;
use plans::{Followed, Plan, Row};

// The highest of these numbers, or v where that is higher.
fn highest_of(numbers: &[u16], v: u16) -> u16
    ensures { Highest (λ (x : ℕ). get_or numbers.now x 0) 0 (length numbers.now) v result }
{
    let mut best = v;
    for number in numbers {
        best = best.max(*number);
    }
    best
}

// The highest that walks count for which end at one of the pixels with these numbers and keys, or v where that
// is higher.
fn highest_ended(numbers: &[u16], keys: &[u16], v: u16, slack: u16) -> u16
    requires { length keys.now ≡ length numbers.now }
    ensures { Highest (λ (x : ℕ). min (get_or numbers.now x 0) (ended slack (get_or keys.now x 0))) 0 (length numbers.now) v result }
{
    let mut best = v;
    for (number, key) in numbers.iter().zip(keys) {
        best = best.max(ended_at(*number, *key, slack));
    }
    best
}

// The same; where a path may end anywhere no key is asked. By hand: a loop of its own, which reads no keys, so that
// such a trace takes no longer for the rule of ends (docs/DECISIONS.md).
fn highest(numbers: &[u16], keys: &[u16], v: u16, slack: u16) -> u16
    requires { length keys.now ≡ length numbers.now }
    ensures { Highest (λ (x : ℕ). min (get_or numbers.now x 0) (ended slack (get_or keys.now x 0))) 0 (length numbers.now) v result }
{
    if slack == plans::MAX_KEY {
        return highest_of(numbers, v);
    }
    highest_ended(numbers, keys, v, slack)
}

// The notes at `to` and after it rise to the row of a state that begins at `at`, plane by plane.
fn note_row(notes: &mut [u16], to: usize, work: &[u16], at: usize, plan: Plan, row: Row, slack: u16)
    requires lo_le_hi { (row.lo ≤ row.hi) × (row.hi ≤ plan.across) × (plan.across ≤ 1024) × (plan.planes ≤ 9) }
    requires at_bound { (at ≤ 16777216) × (at + row_size plan ≤ length work.now) × (to + plan.planes ≤ length notes.old) × (row.at ≤ 65536) × (row.at + plan.across ≤ length work.now) }
    ensures { Lifted (FromRow (row_ended work.now slack row.at at plan.across) row.lo row.hi to plan.planes) notes.old notes.new }
{
    let keys = &work[row.at + row.lo..row.at + row.hi];
    for j in 0..plan.planes {
        let plane = at + j * plan.across;
        let numbers = &work[plane + row.lo..plane + row.hi];
        notes[to + j] = highest(numbers, keys, notes[to + j], slack);
    }
}

// How many steps the walks of row m of state e have.
fn steps_in(plan: Plan, e: usize, m: usize) -> usize
    ensures { result ≡ steps_at plan e m }
{
    if plan.ranked { e } else { m }
}

// The notes rise to all rows of state e, which stands at `base`: each row to the notes of its number of
// steps.
#[tactic(auto, using(plans::proofs::FormLaws::well_formed_sound))]
pub(crate) fn note_state(
    notes: &mut [u16],
    work: &[u16],
    base: usize,
    followed: Followed,
    e: usize,
    slack: u16,
)
    requires { (e < 65536) × (base ≤ 65536) × (base + state_size followed.plan ≤ length work.now) × (keys_size followed.plan ≤ base) × (steps_past followed.plan e * followed.plan.planes ≤ length notes.old) }
    ensures { Lifted (FromState followed.plan (ended_in work.now slack base followed.plan e) e (rows_in followed.plan e)) notes.old notes.new }
{
    let plan = followed.plan;
    let rows = plans::rows_in(plan, e);
    for m in 0..rows {
        let steps = steps_in(plan, e, m);
        let row = followed.row(e, m);
        let at = base + m * (plan.planes * plan.across);
        note_row(notes, steps * plan.planes, work, at, plan, row, slack);
    }
}
