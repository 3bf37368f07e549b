// The doors: a state noted, the far end of a walk found, a step taken and notes searched, where the plan can
// be followed and what is lent has room. Else nothing is noted, no pixel is found, and what was found before
// stays. By hand: the work buffer is lent whole, with where a state begins, since the keys that its rows read stand
// at the head of the same buffer (fixed memory). That such a state has room there, and that a row and its gaps are
// the plan's, the functions behind the doors say each, of `work`, `base` and the numbers: in a type that holds the
// buffer a clause would read `state.now.work.now` for `work.now`, which is no plainer.
ghost use Rattle.std.specs.Prelude.{◌≡◌, true, ◌+◌, ◌<◌, None, length};
ghost use Rattle.basics.specs.Cases.{EitherBy};
ghost use Rattle.plans.specs.Plans.{rows_in};
ghost use Rattle.walks.specs.Noting.{Lifted, FromState, steps_past};
ghost use Rattle.walks.specs.Endings.{ended_in};
ghost use Rattle.walks.specs.Picking.{stored_at, Picked, OfSteps, StepTo};
ghost use Rattle.walks.specs.Searching.{term_at, Searched};
ghost use Rattle.walks.specs.Doors.{can_read, can_note, can_end, on_row, can_step, can_search};

use crate::found::{Found, Paths};
use crate::stand::Stand;
use crate::{far_end, found, notes, step};
use plans::{Followed, Plan};

// Whether the plan can be followed and a state of it stands at `base`, behind the keys.
fn can_read(plan: Plan, base: usize, work: usize) -> bool
    ensures { result ≡ can_read plan base work }
{
    let Some(followed) = Followed::new(plan) else {
        return false;
    };
    states::state_fits(followed, base, work)
}

// One more than the most steps that walks of state e have.
fn steps_past(plan: Plan, e: usize) -> usize
    requires { e < 65536 }
    ensures { result ≡ steps_past plan e }
{
    if plan.ranked {
        return e + 1;
    }
    plans::rows_in(plan, e)
}

// Whether the state can be read and all its notes find room.
fn can_note(plan: Plan, e: usize, base: usize, notes: usize, work: usize) -> bool
    ensures { result ≡ can_note plan e base notes work }
{
    if !can_read(plan, base, work) {
        return false;
    }
    if e >= 65536 {
        return false;
    }
    if base > 65536 {
        return false;
    }
    steps_past(plan, e) * plan.planes <= notes
}

// The notes rise to all rows of state e, which stands at `base`: each row to the notes of its
// number of steps. A walk counts for its number, but where it ends on a gap for no more than the slack.
pub fn note_state(
    notes: &mut [u16],
    work: &[u16],
    base: usize,
    plan: Plan,
    e: usize,
    slack: u16,
) -> bool
    ensures value { result ≡ can_note plan e base (length notes.old) (length work.now) }
    ensures either { EitherBy result (Lifted (FromState plan (ended_in work.now slack base plan e) e (rows_in plan e)) notes.old notes.new) (notes.new ≡ notes.old) }
{
    if !can_note(plan, e, base, notes.len(), work.len()) {
        return false;
    }
    notes::note_state(notes, work, base, Followed { plan }, e, slack);
    true
}

// Whether the state can be read and walks have so many steps and gaps.
fn can_end(plan: Plan, base: usize, steps: usize, gaps: usize, work: usize) -> bool
    ensures { result ≡ can_end plan base steps gaps work }
{
    if !can_read(plan, base, work) {
        return false;
    }
    if gaps >= plan.planes {
        return false;
    }
    if plan.ranked {
        return steps < 65536;
    }
    steps < plans::rows_in(plan, 0)
}

// Where a walk of so many steps with so many gaps may end that counts at t, if it may: a pixel of the state that
// begins at `base`.
pub fn find_end(
    work: &[u16],
    base: usize,
    plan: Plan,
    steps: usize,
    gaps: usize,
    t: u16,
    slack: u16,
) -> Option<Stand>
    ensures { EitherBy (can_end plan base steps gaps (length work.now)) (Picked (OfSteps plan steps) (ended_in work.now slack base plan) plan gaps t result) (result ≡ None) }
{
    if !can_end(plan, base, steps, gaps, work.len()) {
        return None;
    }
    far_end::find_end(work, base, Followed { plan }, steps, gaps, t, slack)
}

// Whether a stand is in a row of the plan.
fn is_on_row(plan: Plan, stand: Stand) -> bool
    ensures { result ≡ on_row plan stand }
{
    if stand.state >= 65536 {
        return false;
    }
    if stand.row >= plans::rows_in(plan, stand.state) {
        return false;
    }
    if stand.pixel >= plan.across {
        return false;
    }
    stand.gaps < plan.planes
}

// Whether the state can be read and a step leads from a stand in its rows.
fn can_step(plan: Plan, base: usize, stand: Stand, work: usize) -> bool
    ensures { result ≡ can_step plan base stand work }
{
    if !can_read(plan, base, work) {
        return false;
    }
    is_on_row(plan, stand)
}

// One step nearer to the picked pixel, to one whose number is at least t, if there is one. The state that has
// the numbers begins at `base`.
pub fn nearer(work: &[u16], base: usize, plan: Plan, stand: Stand, t: u16) -> Option<Stand>
    ensures { EitherBy (can_step plan base stand (length work.now)) (Picked (StepTo plan stand) (stored_at work.now base plan) plan stand.gaps t result) (result ≡ None) }
{
    if !can_step(plan, base, stand, work.len()) {
        return None;
    }
    step::nearer(work, base, Followed { plan }, stand, t)
}

// Whether the notes of both sides are there, and the pixel stands where paths can have it.
fn can_search(paths: Paths, rank: usize, ends: usize, goes: usize) -> bool
    ensures { result ≡ can_search paths rank ends goes }
{
    if paths.steps >= 65536 {
        return false;
    }
    if paths.gaps > 8 {
        return false;
    }
    if paths.spare >= 65536 {
        return false;
    }
    if rank > paths.steps + paths.spare {
        return false;
    }
    let size = (paths.steps + 1) * (paths.gaps + 1);
    if size > ends {
        return false;
    }
    size <= goes
}

// The best of what was found and of all paths of a direction that can have the pixel, whose rank this is, by the
// notes of the walks that end there and of those that go on from it.
pub fn search(
    ends: &[u16],
    goes: &[u16],
    paths: Paths,
    own: u16,
    index: usize,
    rank: usize,
    found: Found,
) -> Found
    ensures { EitherBy (can_search paths rank (length ends.now) (length goes.now)) (Searched (term_at ends.now goes.now paths own) paths.steps paths.gaps paths.spare rank index (paths.steps + 1) found result) (result ≡ found) }
{
    if !can_search(paths, rank, ends.len(), goes.len()) {
        return found;
    }
    found::search(ends, goes, paths, own, index, rank, found)
}
