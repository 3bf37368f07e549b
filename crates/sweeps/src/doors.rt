// The door: a sweep of both sides, where the plans can be followed and what is lent has room; else nothing is
// done.
ghost use Rattle.std.specs.Prelude.{◌≡◌, true, ◌-◌, length};
ghost use Rattle.basics.specs.Cases.{EitherBy};
ghost use Rattle.sweeps.specs.Sweeps.{Swept};
ghost use Rattle.sweeps.specs.Doors.{states_of, other_end, room_for, sweepable};

use crate::sweeping::sweep_held;
use plans::{Followed, Plan, Reach};

// With which line or rank the count from the other end begins. By hand: as a method of `Followed` it would be a
// public function of plans for one caller, and the four cases the same.
fn other_origin(followed: Followed) -> usize
    ensures { result ≡ (other_end followed.plan followed.plan.reach).origin }
{
    let plan = followed.plan;
    match (plan.back, plan.ranked) {
        (true, true) => plan.top + plan.left,
        (true, false) => plan.top,
        (false, true) => plan.bottom + plan.right - 2,
        (false, false) => plan.bottom - 1,
    }
}

// The same rows counted from the other end, with steps that lead back.
fn other_end(followed: Followed, reach: Reach) -> Plan
    ensures { result ≡ other_end followed.plan reach }
{
    Plan {
        origin: other_origin(followed),
        back: !followed.plan.back,
        reach,
        ..followed.plan
    }
}

// How many states there are with all their rows.
#[tactic(auto, unfolding(crate::specs::Doors::states_of))]
fn states_of(followed: Followed) -> usize
    ensures { result ≡ states_of followed.plan }
{
    let plan = followed.plan;
    if plan.still {
        plan.orders
    } else {
        (plan.orders + 1).saturating_sub(plan.rows)
    }
}

// How many numbers of work a sweep asks for.
#[tactic(auto, unfolding(crate::specs::Doors::room_for))]
fn room_for(followed: Followed) -> usize
    ensures { result ≡ room_for followed.plan }
{
    let states = if followed.plan.linked { 2 } else { 1 };
    followed.keys_size() + states * followed.state_size()
}

// All states of both sides of a direction, joined: `best` rises to the walks that meet at each pixel. The
// plan is that of one side, whose states are made when they are wanted; `reach` has the other side's steps.
// Whether it was taken is a bool, as `sweepable` of specs/ says it to directions.
#[tactic(auto, using(states::proofs::DoorTests::hold_facts), unfolding(crate::specs::Doors::sweepable))]
pub fn sweep(best: &mut [u16], work: &mut [u16], plan: Plan, reach: Reach) -> bool
    ensures value { result ≡ sweepable plan reach (length work.old) (length best.old) }
    ensures either { EitherBy result (Swept plan (other_end plan reach) (states_of plan) work.old best.old best.new) ((best.new ≡ best.old) × (work.new ≡ work.old)) }
{
    if !states::can_hold(plan, 24480) {
        return false;
    }
    let ours = Followed { plan };
    let Some(theirs) = Followed::new(other_end(ours, reach)) else {
        return false;
    };
    let count = states_of(ours);
    if count <= 1024 && room_for(ours) <= work.len() && ours.keys_size() <= best.len() {
        sweep_held(best, work, ours, theirs, count);
        true
    } else {
        false
    }
}
