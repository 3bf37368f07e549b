// The doors: states made, or made and the last joined with another, where the plan can be followed and what
// is lent has room. Else nothing is done. A door answers whether it was taken: no value stands beside that, and
// there is one reason alone why not.
ghost use Rattle.std.specs.Prelude.{◌≡◌, true, ◌+◌, ◌<◌, leb, length};
ghost use Rattle.basics.specs.Cases.{EitherBy};
ghost use Rattle.states.specs.States.{Advanced, Joined};
ghost use Rattle.states.specs.Doors.{held_fits, can_hold, can_make, state_fits, same_or_apart, advances, joins};

use crate::state::{Batch, Stretch, half_with, make_joined, make_states};
use plans::{Followed, Plan};

// Whether n numbers from `at` on lie within so many.
pub fn lies_in(at: usize, n: usize, len: usize) -> bool
    ensures { result ≡ leb (at + n) len }
{
    if n > len {
        return false;
    }
    at <= len - n
}

// Whether the held rows find room, where `more` states are made at once with the first.
fn held_fits(followed: Followed, more: usize, held: usize) -> bool
    requires { more < 65536 }
    ensures { result ≡ held_fits followed.plan more held }
{
    let half = half_with(followed, more);
    if half + half > held {
        return false;
    }
    held <= 40000
}

// Whether the plan can be followed and the held rows of one state find room.
pub fn can_hold(plan: Plan, held: usize) -> bool
    ensures { result ≡ can_hold plan held }
{
    if !plans::is_well_formed(plan) {
        return false;
    }
    held_fits(Followed { plan }, 0, held)
}

// Whether there are these states, and their held rows find room.
fn can_make(followed: Followed, states: Stretch, held: usize) -> bool
    ensures { result ≡ can_make followed.plan states held }
{
    if states.first >= states.past {
        return false;
    }
    if states.past > 65536 {
        return false;
    }
    held_fits(followed, states.past - 1 - states.first, held)
}

// Whether a state at this place finds room behind the keys.
pub fn state_fits(followed: Followed, at: usize, work: usize) -> bool
    ensures { result ≡ state_fits followed.plan at work }
{
    if followed.keys_size() > at {
        return false;
    }
    lies_in(at, followed.state_size(), work)
}

// Whether the two places are the same or their states do not overlap.
fn same_or_apart(followed: Followed, from: usize, to: usize) -> bool
    ensures { result ≡ same_or_apart followed.plan from to }
{
    if from == to {
        return true;
    }
    let size = followed.state_size();
    if lies_in(from, size, to) {
        return true;
    }
    lies_in(to, size, from)
}

// Whether what states are made of and where the last comes to fit.
fn can_advance(
    followed: Followed,
    states: Stretch,
    from: usize,
    to: usize,
    work: usize,
    held: usize,
) -> bool
    ensures { result ≡ advances followed.plan states from to work held }
{
    if !can_make(followed, states, held) {
        return false;
    }
    if !state_fits(followed, from, work) {
        return false;
    }
    if !state_fits(followed, to, work) {
        return false;
    }
    same_or_apart(followed, from, to)
}

// States from the one before at `from`, the last of them at `to`, which may be the same place; the keys
// stand at the beginning of the work buffer. What `held` then holds is free.
pub fn advance(
    work: &mut [u16],
    held: &mut [u16],
    plan: Plan,
    states: Stretch,
    from: usize,
    to: usize,
) -> bool
    ensures value { result ≡ advances plan states from to (length work.old) (length held.old) }
    ensures either { EitherBy result (Advanced plan states.first states.past work.old work.new from to) (work.new ≡ work.old) }
    ensures held_len_unchanged { length held.new ≡ length held.old }
{
    if !plans::is_well_formed(plan) {
        return false;
    }
    let followed = Followed { plan };
    if !can_advance(followed, states, from, to, work.len(), held.len()) {
        return false;
    }
    make_states(work, held, followed, Batch { states }, from, to);
    true
}

// Whether the last of some states can be joined with the one at `ends`.
fn can_join(
    followed: Followed,
    states: Stretch,
    from: usize,
    ends: usize,
    best: usize,
    work: usize,
    held: usize,
) -> bool
    ensures { result ≡ joins followed.plan states from ends best work held }
{
    if !can_make(followed, states, held) {
        return false;
    }
    if plans::rows_in(followed.plan, states.past - 1) != followed.plan.rows {
        return false;
    }
    if !state_fits(followed, from, work) {
        return false;
    }
    if !state_fits(followed, ends, work) {
        return false;
    }
    followed.keys_size() <= best
}

// States from the one before at `from`, the last of which is joined with the state at `ends`: the best of
// each pixel rises to the walks of both that meet there. None is kept.
pub fn advance_joined(
    best: &mut [u16],
    work: &[u16],
    held: &mut [u16],
    plan: Plan,
    states: Stretch,
    from: usize,
    ends: usize,
) -> bool
    ensures value { result ≡ joins plan states from ends (length best.old) (length work.now) (length held.old) }
    ensures either { EitherBy result (Joined plan states.first states.past work.now best.old best.new from ends) (best.new ≡ best.old) }
    ensures held_len_unchanged { length held.new ≡ length held.old }
    ensures best_len_unchanged { length best.new ≡ length best.old }
{
    if !plans::is_well_formed(plan) {
        return false;
    }
    let followed = Followed { plan };
    if !can_join(
        followed,
        states,
        from,
        ends,
        best.len(),
        work.len(),
        held.len(),
    ) {
        return false;
    }
    make_joined(best, work, held, followed, Batch { states }, from, ends);
    true
}
