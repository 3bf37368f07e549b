// The doors of states, stacks and walks, called where it is known that they are taken. By hand: each says so by a
// `requires`, which the door itself, a public function, may not have. What they ask of a place in the work buffer
// they say of `work` and `base` apart, as the doors take them: a type of the two would have to be taken apart at
// each door, which is no plainer.
ghost use Rattle.std.specs.Prelude.{◌≡◌, false, ℕ, ◌+◌, ◌-◌, ◌*◌, ◌≤◌, ◌<◌, length};
ghost use Rattle.plans.specs.Plans.{rows_in, state_size, keys_size, half_of};
ghost use Rattle.states.specs.States.{Advanced};
ghost use Rattle.stacks.specs.Stacks.{StackFits, Fetched};
ghost use Rattle.walks.specs.Endings.{ended_in};
ghost use Rattle.walks.specs.Noting.{Lifted, FromState, steps_past};
ghost use Rattle.walks.specs.Picking.{stored_at, Picked, OfSteps, StepTo, OnRow};
ghost use Rattle.walks.specs.Searching.{term_at, Searched};

use plans::Followed;
use stacks::Stack;
use states::Stretch;
use walks::{Found, Paths, Stand};

// State e in the place of the last one.
pub(crate) fn advance(work: &mut [u16], held: &mut [u16], followed: Followed, e: usize, at: usize)
    requires e_bound { (e < 65536) × (keys_size followed.plan ≤ at) × (at + state_size followed.plan ≤ length work.old) }
    requires plan_in_bounds { (half_of followed.plan + half_of followed.plan ≤ length held.old) × (length held.old ≤ 40000) }
    ensures advanced { Advanced followed.plan e (e + 1) work.old work.new at at }
    ensures held_len_unchanged { length held.new ≡ length held.old }
{
    let this = Stretch {
        first: e,
        past: e + 1,
    };
    states::advance(work, held, followed.plan, this, at, at);
}

// A stack whose last state is the one of number `want` less one.
pub(crate) fn fetch(
    work: &mut [u16],
    marks: &mut [usize],
    held: &mut [u16],
    followed: Followed,
    stack: Stack,
    want: usize,
) -> Stack
    requires stack_fits { (StackFits followed.plan stack (length work.old) (length marks.old)) × (want ≤ 1024) }
    requires plan_in_bounds { (half_of followed.plan + half_of followed.plan ≤ length held.old) × (length held.old ≤ 40000) }
    ensures base_value { (result.base ≡ stack.base) × (result.places ≡ stack.places) × (result.depth ≤ stack.places) }
    ensures fetched { Fetched followed.plan stack result.depth want 0 work.old marks.old work.new marks.new }
    ensures held_len_unchanged { length held.new ≡ length held.old }
{
    stacks::fetch(work, marks, held, followed.plan, stack, want, 0)
}

// Where its last state begins.
pub(crate) fn top_of(followed: Followed, stack: Stack) -> usize
    requires { (stack.depth ≤ 64) × (stack.base < 16777216) }
    ensures { result ≡ stack.base + (stack.depth - 1) * state_size followed.plan }
{
    stacks::top_of(followed.plan, stack)
}

// The notes rise to all rows of state e, which stands at `base`.
pub(crate) fn note_state(
    notes: &mut [u16],
    work: &[u16],
    base: usize,
    followed: Followed,
    e: usize,
    slack: u16,
)
    requires { (e < 65536) × (base ≤ 65536) × (base + state_size followed.plan ≤ length work.now) × (keys_size followed.plan ≤ base) × (steps_past followed.plan e * followed.plan.planes ≤ length notes.old) }
    ensures { Lifted (FromState followed.plan (ended_in work.now slack base followed.plan e) e (rows_in followed.plan e)) notes.old notes.new }
{
    walks::note_state(notes, work, base, followed.plan, e, slack);
}

// Where a walk of so many steps with so many gaps ends that counts at t, if one does.
pub(crate) fn find_end(
    work: &[u16],
    base: usize,
    followed: Followed,
    steps: usize,
    gaps: usize,
    t: u16,
    slack: u16,
) -> Option<Stand>
    requires { (steps < 65536) × (followed.plan.ranked ≡ false → steps < rows_in followed.plan 0) × (gaps < followed.plan.planes) × (keys_size followed.plan ≤ base) × (base + state_size followed.plan ≤ length work.now) }
    ensures { Picked (OfSteps followed.plan steps) (ended_in work.now slack base followed.plan) followed.plan gaps t result }
{
    walks::find_end(work, base, followed.plan, steps, gaps, t, slack)
}

// One step nearer to the picked pixel, to one whose number is at least t, if there is one.
pub(crate) fn nearer(
    work: &[u16],
    base: usize,
    followed: Followed,
    stand: Stand,
    t: u16,
) -> Option<Stand>
    requires { (OnRow followed.plan stand) × (keys_size followed.plan ≤ base) × (base + state_size followed.plan ≤ length work.now) }
    ensures { Picked (StepTo followed.plan stand) (stored_at work.now base followed.plan) followed.plan stand.gaps t result }
{
    walks::nearer(work, base, followed.plan, stand, t)
}

// The best of what was found and of all paths of a direction that can have the pixel.
pub(crate) fn search(
    ends: &[u16],
    goes: &[u16],
    paths: Paths,
    own: u16,
    index: usize,
    rank: usize,
    found: Found,
) -> Found
    requires steps_bound { (paths.steps < 65536) × (paths.gaps ≤ 8) × (rank ≤ paths.steps + paths.spare) × (paths.spare < 65536) }
    requires gaps_in_bounds { ((paths.steps + 1) * (paths.gaps + 1) ≤ length ends.now) × ((paths.steps + 1) * (paths.gaps + 1) ≤ length goes.now) }
    ensures { Searched (term_at ends.now goes.now paths own) paths.steps paths.gaps paths.spare rank index (paths.steps + 1) found result }
{
    walks::search(ends, goes, paths, own, index, rank, found)
}
