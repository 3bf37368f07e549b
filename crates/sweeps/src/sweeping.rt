// All states of both sides of a direction, joined: the walks that end at the pixels and those that go on
// from there. The other side's states are made once, in their order, which is against the order of this
// side; of this side each is made when it is wanted, and joined without being kept.
ghost use Rattle.std.specs.Prelude.{◌≡◌, true, false, ◌+◌, ◌*◌, ◌≤◌, length};
ghost use Rattle.plans.specs.Plans.{state_size, keys_size, half_of};
ghost use Rattle.sweeps.specs.Sweeps.{Opposite, Swept};

use crate::taken::{advance, advance_joined};
use plans::Followed;
use stacks::Stack;
use states::Stretch;

// So many numbers lie before the held rows. Any number up to 7 is right; it is chosen so that in the built
// library pixel 0 of a row, which has a zero before it, begins a vector of eight.
const LEAD: usize = 3;

// The sides of a direction whose states are not linked: one state finds room.
fn sweep_apart(
    best: &mut [u16],
    work: &mut [u16],
    held: &mut [u16],
    ours: Followed,
    theirs: Followed,
    states: usize,
)
    requires opposite { (Opposite ours.plan theirs.plan states) × (ours.plan.linked ≡ false) }
    requires plan_in_bounds { (keys_size ours.plan + state_size ours.plan ≤ length work.old) × (keys_size ours.plan ≤ length best.old) }
    requires plan_in_bounds_2 { (half_of ours.plan + half_of ours.plan ≤ length held.old) × (length held.old ≤ 40000) }
    ensures { Swept ours.plan theirs.plan states work.old best.old best.new }
{
    let base = ours.keys_size();
    for e in 0..states {
        let next = Stretch {
            first: e,
            past: e + 1,
        };
        advance(work, held, theirs, next, base, base);
        let d = states - 1 - e;
        let meeting = Stretch {
            first: d,
            past: d + 1,
        };
        advance_joined(best, work, held, ours, meeting, base, base);
    }
}

// The sides of a direction whose states are linked: those of this side come from a stack, which leaves room for
// the other side's state behind it.
fn sweep_linked(
    best: &mut [u16],
    work: &mut [u16],
    held: &mut [u16],
    ours: Followed,
    theirs: Followed,
    states: usize,
)
    requires opposite { Opposite ours.plan theirs.plan states }
    requires plan_in_bounds { (keys_size ours.plan + 2 * state_size ours.plan ≤ length work.old) × (keys_size ours.plan ≤ length best.old) }
    requires plan_in_bounds_2 { (half_of ours.plan + half_of ours.plan ≤ length held.old) × (length held.old ≤ 40000) }
    ensures { Swept ours.plan theirs.plan states work.old best.old best.new }
{
    let base = ours.keys_size();
    let size = ours.state_size();
    let places = stacks::places_in(work.len() - base - size, size);
    let ends = base + places * size;
    let spare = stacks::at_once(ours.plan, held.len()) - 1;
    let mut marks = [0usize; 64];
    let mut stack = Stack {
        base,
        places,
        depth: 0,
    };
    for e in 0..states {
        let next = Stretch {
            first: e,
            past: e + 1,
        };
        advance(work, held, theirs, next, ends, ends);
        let d = states - 1 - e;
        stack = stacks::fetch(work, &mut marks, held, ours.plan, stack, d, spare);
        let from = stacks::top_of(ours.plan, stack);
        let meeting = Stretch {
            first: stacks::last_mark(&marks, stack.depth),
            past: d + 1,
        };
        advance_joined(best, work, held, ours, meeting, from, ends);
    }
}

// All states of both sides, joined. The rows that are held lie on the stack of the call: 50 KB, so that four
// states are made at once where a row has 256 pixels and nine planes.
pub(crate) fn sweep_held(
    best: &mut [u16],
    work: &mut [u16],
    ours: Followed,
    theirs: Followed,
    states: usize,
)
    requires opposite { Opposite ours.plan theirs.plan states }
    requires plan_in_bounds { (keys_size ours.plan + state_size ours.plan ≤ length work.old) × (ours.plan.linked ≡ true → keys_size ours.plan + 2 * state_size ours.plan ≤ length work.old) × (keys_size ours.plan ≤ length best.old) }
    requires plan_bound { half_of ours.plan + half_of ours.plan ≤ 24480 }
    ensures { Swept ours.plan theirs.plan states work.old best.old best.new }
{
    let mut held = [0u16; 24496];
    let rows = &mut held[LEAD..];
    if ours.plan.linked {
        sweep_linked(best, work, rows, ours, theirs, states);
    } else {
        sweep_apart(best, work, rows, ours, theirs, states);
    }
}
