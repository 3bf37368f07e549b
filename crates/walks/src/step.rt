// One step nearer to the picked pixel: to a pixel whose number, with the gaps that are left, is at least the
// level.
ghost use Rattle.std.specs.Prelude.{◌≡◌, ◌+◌, ◌-◌, ◌≤◌, ◌<◌, length};
ghost use Rattle.theory.specs.BestWalks.{under};
ghost use Rattle.plans.specs.Plans.{rows_in, state_size};
ghost use Rattle.walks.specs.Picking.{stored_at, Picked, JustBefore, TapTo, StepTo, OnRow};

use crate::stand::Stand;
use plans::Followed;

// The gaps that are left after a pixel with this key, on a path that counts at t; 0 where none was left.
pub fn gaps_after(key: u16, t: u16, left: usize) -> usize
    ensures { result ≡ left - under t key }
{
    if key >= t {
        return left;
    }
    left.saturating_sub(1)
}

// The pixel before `past` of a row of the state that begins at `base`, if the row has it and its number is at
// least t.
fn looked(
    work: &[u16],
    base: usize,
    followed: Followed,
    state: usize,
    row: usize,
    past: usize,
    gaps: usize,
    t: u16,
) -> Option<Stand>
    requires { (state < 65536) × (row < rows_in followed.plan state) × (gaps < followed.plan.planes) × (base + state_size followed.plan ≤ length work.now) }
    ensures { Picked (JustBefore state row past) (stored_at work.now base followed.plan) followed.plan gaps t result }
{
    let plan = followed.plan;
    let r = followed.row(state, row);
    if past <= r.lo {
        return None;
    }
    if past > r.hi {
        return None;
    }
    let at = base + row * (plan.planes * plan.across) + gaps * plan.across;
    if work[at + (past - 1)] < t {
        return None;
    }
    Some(Stand {
        state,
        row,
        pixel: past - 1,
        gaps,
    })
}

// Where the step that finds its number in row y, x pixels on less one, leads from a stand, if the number there
// is at least t: from row 0 and 1 one row back, and from 1 and 2 one state. The state of that row begins at
// `base`.
fn tapped(
    work: &[u16],
    base: usize,
    followed: Followed,
    stand: Stand,
    y: usize,
    x: usize,
    t: u16,
) -> Option<Stand>
    requires { (OnRow followed.plan stand) × (x ≤ 2) × (base + state_size followed.plan ≤ length work.now) }
    ensures { Picked (TapTo stand y x) (stored_at work.now base followed.plan) followed.plan stand.gaps t result }
{
    let state = stand.state.checked_sub(y.min(1))?;
    let row = stand.row.checked_sub(usize::from(y < 2))?;
    looked(
        work,
        base,
        followed,
        state,
        row,
        stand.pixel + x,
        stand.gaps,
        t,
    )
}

// One step nearer to the picked pixel, by the steps of the table: to the first pixel whose number is at least t.
pub(crate) fn nearer(
    work: &[u16],
    base: usize,
    followed: Followed,
    stand: Stand,
    t: u16,
) -> Option<Stand>
    requires { (OnRow followed.plan stand) × (base + state_size followed.plan ≤ length work.now) }
    ensures { Picked (StepTo followed.plan stand) (stored_at work.now base followed.plan) followed.plan stand.gaps t result }
{
    let reach = followed.plan.reach;
    tapped(work, base, followed, stand, reach.y0, reach.x0, t)
        .or_else(|| tapped(work, base, followed, stand, reach.y1, reach.x1, t))
        .or_else(|| tapped(work, base, followed, stand, reach.y2, reach.x2, t))
}
