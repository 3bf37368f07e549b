// Where a walk from the picked pixel may end: the pixels of a state whose walks count, as far as a path may
// end there.
ghost use Rattle.std.specs.Prelude.{◌≡◌, false, ℕ, ◌+◌, ◌≤◌, ◌<◌, min, length, get_or};
ghost use Rattle.theory.specs.BestWalks.{ended};
ghost use Rattle.plans.specs.Plans.{rows_in, state_size, keys_size};
ghost use Rattle.walks.specs.Endings.{ended_in};
ghost use Rattle.walks.specs.Picking.{Picked, FirstOf, RowsFrom, OfSteps};

use crate::ended::ended_at;
use crate::stand::Stand;
use plans::Followed;

// Some rows of a state: those from `first` below `past`.
#[derive(Clone, Copy)]
pub(crate) struct Rows {
    pub(crate) state: usize,
    pub(crate) first: usize,
    pub(crate) past: usize,
}

// The first of the pixels with these numbers and keys where walks that end there count at t.
fn first_of(numbers: &[u16], keys: &[u16], t: u16, slack: u16) -> Option<usize>
    requires { length keys.now ≡ length numbers.now }
    ensures { FirstOf (λ (x : ℕ). min (get_or numbers.now x 0) (ended slack (get_or keys.now x 0))) (length numbers.now) t result }
{
    numbers
        .iter()
        .zip(keys)
        .position(|(number, key)| ended_at(*number, *key, slack) >= t)
}

// Where in these rows of the state that begins at `base` a walk with so many gaps may end that counts at t.
#[tactic(auto, using(plans::proofs::FormLaws::well_formed_sound))]
fn find_among(
    work: &[u16],
    base: usize,
    followed: Followed,
    rows: Rows,
    gaps: usize,
    t: u16,
    slack: u16,
) -> Option<Stand>
    requires { (rows.state < 65536) × (rows.first ≤ rows.past) × (rows.past ≤ rows_in followed.plan rows.state) × (gaps < followed.plan.planes) × (base + state_size followed.plan ≤ length work.now) × (keys_size followed.plan ≤ length work.now) }
    ensures { Picked (RowsFrom rows.state rows.first rows.past) (ended_in work.now slack base followed.plan) followed.plan gaps t result }
{
    let plan = followed.plan;
    for row in rows.first..rows.past {
        let r = followed.row(rows.state, row);
        let plane = base + row * (plan.planes * plan.across) + gaps * plan.across;
        let numbers = &work[plane + r.lo..plane + r.hi];
        let keys = &work[r.at + r.lo..r.at + r.hi];
        if let Some(x) = first_of(numbers, keys, t, slack) {
            return Some(Stand {
                state: rows.state,
                row,
                pixel: r.lo + x,
                gaps,
            });
        }
    }
    None
}

// Where a walk of so many steps ends: the first pixel of the state, which begins at `base`, that may be its
// last. On ranks every row is of so many steps; on lines one is.
pub(crate) fn find_end(
    work: &[u16],
    base: usize,
    followed: Followed,
    steps: usize,
    gaps: usize,
    t: u16,
    slack: u16,
) -> Option<Stand>
    requires { (steps < 65536) × (followed.plan.ranked ≡ false → steps < rows_in followed.plan 0) × (gaps < followed.plan.planes) × (base + state_size followed.plan ≤ length work.now) × (keys_size followed.plan ≤ length work.now) }
    ensures { Picked (OfSteps followed.plan steps) (ended_in work.now slack base followed.plan) followed.plan gaps t result }
{
    if followed.plan.ranked {
        let ranks = Rows {
            state: steps,
            first: 0,
            past: plans::rows_in(followed.plan, steps),
        };
        return find_among(work, base, followed, ranks, gaps, t, slack);
    }
    let line = Rows {
        state: 0,
        first: steps,
        past: steps + 1,
    };
    find_among(work, base, followed, line, gaps, t, slack)
}
