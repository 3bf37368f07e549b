// The doors of the stack: what is handed in is judged first. Where the plan can be followed and what is lent
// has room, states are made; else nothing is done. A refusal is told by a value and no `Option`, the stack as
// it came, 0 or 1: so `fetches`, `top_of` and `at_once` of specs/ say it to the crates above.
ghost use Rattle.std.specs.Prelude.{◌≡◌, ◌+◌, ◌-◌, ◌≤◌, length};
ghost use Rattle.basics.specs.Cases.{EitherBy};
ghost use Rattle.plans.specs.Plans.{half_with};
ghost use Rattle.states.specs.Doors.{can_hold};
ghost use Rattle.stacks.specs.Stacks.{Fetched};
ghost use Rattle.stacks.specs.Doors.{stack_fits, fetches, top_of, at_once};

use crate::stack;
use crate::stack::Stack;
use plans::{Followed, Plan};

// Whether the stack stands behind the keys, and its places find room in work and in marks.
#[tactic(auto, unfolding(plans::specs::Forms::among, crate::specs::Doors::stack_fits))]
fn stack_fits(followed: Followed, stack: Stack, work: usize, marks: usize) -> bool
    ensures { result ≡ stack_fits followed.plan stack work marks }
{
    followed.keys_size() <= stack.base
        && stack.base < 16777216
        && (1..=64).contains(&stack.places)
        && stack.depth <= stack.places
        && stack::place_of(followed, stack.base, stack.places) <= work
        && stack.places <= marks
}

// A stack with which so many states are made as are wanted, or up to `spare` fewer; an empty one where none
// are. Where something does not fit, the stack as it came.
#[tactic(auto, using(states::proofs::DoorTests::hold_facts, crate::proofs::DoorTests::stack_facts), unfolding(crate::specs::Doors::fetches))]
pub fn fetch(
    work: &mut [u16],
    marks: &mut [usize],
    held: &mut [u16],
    plan: Plan,
    stack: Stack,
    want: usize,
    spare: usize,
) -> Stack
    ensures either { EitherBy (fetches plan stack want spare (length work.old) (length marks.old) (length held.old)) (((result.base ≡ stack.base) × (result.places ≡ stack.places) × (result.depth ≤ stack.places)) × Fetched plan stack result.depth want spare work.old marks.old work.new marks.new) ((result ≡ stack) × (work.new ≡ work.old) × (marks.new ≡ marks.old)) }
    ensures held_len_unchanged { length held.new ≡ length held.old }
{
    if !states::can_hold(plan, held.len()) {
        return stack;
    }
    let followed = Followed { plan };
    if stack_fits(followed, stack, work.len(), marks.len()) && want <= 1024 && spare <= 1024 {
        stack::fetch(work, marks, held, followed, stack, want, spare)
    } else {
        stack
    }
}

// Where the last state of a stack begins; where the stack does, if it is empty; 0 where it is none.
#[tactic(auto, unfolding(crate::specs::Doors::has_top, crate::specs::Doors::top_of))]
pub fn top_of(plan: Plan, stack: Stack) -> usize
    ensures { result ≡ top_of plan stack }
{
    match Followed::new(plan) {
        Some(followed) if stack.depth <= 64 && stack.base < 16777216 => {
            stack::top_of(followed, stack)
        }
        _ => 0,
    }
}

// How many states are made at once with so many held numbers, up to six; one, where the plan cannot be
// followed with them.
#[tactic(auto, using(states::proofs::DoorTests::hold_facts), unfolding(crate::specs::Doors::at_once))]
pub fn at_once(plan: Plan, held: usize) -> usize
    ensures value { result ≡ at_once plan held }
    ensures lower_bound { (1 ≤ result) × (result ≤ 6) }
    ensures either { EitherBy (can_hold plan held) (half_with plan (result - 1) + half_with plan (result - 1) ≤ held) (result ≡ 1) }
{
    if states::can_hold(plan, held) {
        stack::at_once(Followed { plan }, held)
    } else {
        1
    }
}
