// States are wanted from the last back, and a state cannot be undone. So a stack of earlier states is
// kept in the work buffer, and a state is made again from the nearest one before it; the fewer places
// are left, the fewer states are kept on the way. The last `spare` states before the wanted one need not be
// kept, where they can be made at once with it. That `held` has room stands in three contracts by hand: a
// type that knew it would hold the slice, which is lent on at each call, or its length beside it, and that
// would be one more fact to say.
ghost use Rattle.std.specs.Prelude.{◌≡◌, ◌⊎◌, ◌+◌, ◌-◌, ◌*◌, ◌≤◌, ◌<◌, MatchOption, length};
ghost use Rattle.plans.specs.Plans.{state_size, keys_size, half_of, half_with};
ghost use Rattle.stacks.specs.Doors.{linked_at_once, places_in};
ghost use Rattle.stacks.specs.Stacks.{StackFits, RunOn, Pushed, Fetched, last_mark};

use crate::taken::advance;
use plans::Followed;
use states::Stretch;

// Where the stack begins in the work buffer, for how many states it has room, and how many it has.
#[derive(Clone, Copy)]
pub struct Stack {
    pub base: usize,
    pub places: usize,
    pub depth: usize,
}

// How many states of this size find room, up to the 64 that there are marks for; none, where states have no size.
#[tactic(auto, unfolding(crate::specs::Doors::places_in))]
pub fn places_in(room: usize, size: usize) -> usize
    ensures { result ≡ places_in room size }
{
    if size == 0 { 0 } else { (room / size).min(64) }
}

// Where the state t of a stack begins, counted from 0, if the stack begins at `base`.
pub(crate) fn place_of(followed: Followed, base: usize, t: usize) -> usize
    requires { (t ≤ 64) × (base < 16777216) }
    ensures { result ≡ base + t * state_size followed.plan }
{
    base + t * followed.state_size()
}

// How many states on the next one is kept, on the way to one `far` states on, with this many places
// left. With b = C(places + t - 1, places), the greatest binomial coefficient of these that is not above
// `far`, every state is made at most t + 1 times (Griewank and Walther's schedule) where b states are left
// out here and no more than the same of t - 1 and of one place less remain after them. Any number from 1
// to `far` would do; this one is the best.
fn stride(places: usize, far: usize) -> usize
    requires { (1 ≤ places) × (places ≤ 65) × (1 ≤ far) × (far ≤ 1024) }
    ensures { (1 ≤ result) × (result ≤ far) }
{
    let mut last = 0;
    let mut c = 1;
    for t in 1..1024 {
        let more = c * (places + t) / t;
        if more > far {
            return c.min(far + 1 - (c - last));
        }
        last = c;
        c = more;
    }
    c
}

// The same where the last `spare` states need not be kept, which is like a place more. After the last place
// no more than these may remain.
fn stride_with(places: usize, far: usize, spare: usize) -> usize
    requires { (1 ≤ places) × (places ≤ 64) × (1 ≤ far) × (far ≤ 1024) × (spare ≤ 1024) }
    ensures { (1 ≤ result) × (result ≤ far) × (places ≡ 1 → far ≤ result + spare) }
{
    match (places, spare) {
        (1, 0) => far,
        (_, 0) => stride(places, far),
        (1, _) => stride(2, far).max(far.saturating_sub(spare)),
        _ => stride(places + 1, far),
    }
}

// How many states are made with the next one that is kept on the way to `want`; `None` where none is to be
// kept.
fn next_mark(places: usize, made: usize, want: usize, spare: usize) -> Option<usize>
    requires { (places ≤ 64) × (made ≤ want) × (want ≤ 1024) × (spare ≤ 1024) × (places ≡ 0 → want ≤ made + spare) }
    ensures { MatchOption result (want ≤ made + spare) (λ next. (made < next) × (next ≤ want) × (1 ≤ places) × (places ≡ 1 → want ≤ next + spare)) }
{
    if made == want || places == 0 {
        return None;
    }
    let next = made + stride_with(places, want - made, spare);
    if next < want || made + spare < want {
        Some(next)
    } else {
        None
    }
}

// The states later than `want` are dropped; so is the last one of a full stack that is too early, to make
// room for another.
#[tactic(auto, using(crate::proofs::StackLaws::last_none, crate::proofs::StackLaws::last_of))]
fn drop_later(marks: &[usize], places: usize, depth: usize, want: usize, spare: usize) -> usize
    requires { (1 ≤ places) × (depth ≤ places) × (depth ≤ length marks.now) × (spare ≤ 1024) }
    ensures { (result ≤ depth) × (last_mark marks.now result ≤ want) × (result ≡ places → want ≤ last_mark marks.now result + spare) }
{
    for d in (1..=depth).rev() {
        let last = marks[d - 1];
        if last <= want && (d < places || want - last <= spare) {
            return d;
        }
    }
    0
}

// How many states are made with the last one of the stack; none where the stack is empty, or deeper than it
// has marks.
#[tactic(auto, using(crate::proofs::StackLaws::last_none, crate::proofs::StackLaws::last_of))]
pub fn last_mark(marks: &[usize], depth: usize) -> usize
    ensures { result ≡ last_mark marks.now depth }
{
    if depth == 0 {
        0
    } else {
        marks.get(depth - 1).copied().unwrap_or(0)
    }
}

// How many states are made at once with so many held numbers, up to six: more bring nothing, since the held
// rows no longer lie near the processor. States that are not linked have nothing in common.
pub(crate) fn at_once(followed: Followed, held: usize) -> usize
    requires { half_of followed.plan + half_of followed.plan ≤ held }
    ensures value { result ≡ linked_at_once followed.plan held }
    ensures lower_bound { (1 ≤ result) × (result ≤ 6) × (half_with followed.plan (result - 1) + half_with followed.plan (result - 1) ≤ held) }
{
    if followed.plan.linked {
        (held / 2 / followed.block_size() - 1).min(6)
    } else {
        1
    }
}

// The states from number `first` below `past`, as many at once as can be, the first of them from the one at
// `from`, the others in the place of the one before; the last of them stays at `to`.
fn run_on(
    work: &mut [u16],
    held: &mut [u16],
    followed: Followed,
    first: usize,
    past: usize,
    from: usize,
    to: usize,
)
    requires first_lt_past { (first < past) × (past ≤ 1024) × (keys_size followed.plan ≤ from) × (to + state_size followed.plan ≤ length work.old) }
    requires fact { (from ≡ to) ⊎ (from + state_size followed.plan ≤ to) }
    requires plan_in_bounds { (half_of followed.plan + half_of followed.plan ≤ length held.old) × (length held.old ≤ 40000) }
    ensures run_on { RunOn followed.plan first past work.old work.new from to }
    ensures held_len_unchanged { length held.new ≡ length held.old }
{
    let count = at_once(followed, held.len());
    let mut before = from;
    for e in (first..past).step_by(count) {
        let next = Stretch {
            first: e,
            past: past.min(e + count),
        };
        advance(work, held, followed, next, before, to);
        before = to;
    }
}

// Where the last state of the stack begins; where the stack does, if it is empty.
pub(crate) fn top_of(followed: Followed, stack: Stack) -> usize
    requires { (stack.depth ≤ 64) × (stack.base < 16777216) }
    ensures { result ≡ stack.base + (stack.depth - 1) * state_size followed.plan }
{
    place_of(followed, stack.base, stack.depth.saturating_sub(1))
}

// One state more on the stack, the one of number `past` less one.
fn push(
    work: &mut [u16],
    marks: &mut [usize],
    held: &mut [u16],
    followed: Followed,
    stack: Stack,
    past: usize,
)
    requires stack_fits { (StackFits followed.plan stack (length work.old) (length marks.old)) × (stack.depth < stack.places) × (past ≤ 1024) }
    requires depth_bound { last_mark marks.old stack.depth < past }
    requires plan_in_bounds { (half_of followed.plan + half_of followed.plan ≤ length held.old) × (length held.old ≤ 40000) }
    ensures pushed { Pushed followed.plan stack.base stack.depth past work.old marks.old work.new marks.new }
    ensures depth_after { last_mark marks.new (stack.depth + 1) ≡ past }
    ensures held_len_unchanged { length held.new ≡ length held.old }
{
    let first = last_mark(marks, stack.depth);
    let to = place_of(followed, stack.base, stack.depth);
    let from = top_of(followed, stack);
    run_on(work, held, followed, first, past, from, to);
    marks[stack.depth] = past;
}

// A stack with which so many states are made as are wanted, or up to `spare` fewer.
pub(crate) fn fetch(
    work: &mut [u16],
    marks: &mut [usize],
    held: &mut [u16],
    followed: Followed,
    stack: Stack,
    want: usize,
    spare: usize,
) -> Stack
    requires stack_fits { (StackFits followed.plan stack (length work.old) (length marks.old)) × (want ≤ 1024) × (spare ≤ 1024) }
    requires plan_in_bounds { (half_of followed.plan + half_of followed.plan ≤ length held.old) × (length held.old ≤ 40000) }
    ensures base_value { (result.base ≡ stack.base) × (result.places ≡ stack.places) × (result.depth ≤ stack.places) }
    ensures fetched { Fetched followed.plan stack result.depth want spare work.old marks.old work.new marks.new }
    ensures held_len_unchanged { length held.new ≡ length held.old }
{
    let places = stack.places;
    let mut depth = drop_later(marks, places, stack.depth, want, spare);
    let mut made = last_mark(marks, depth);
    while let Some(next) = next_mark(places - depth, made, want, spare) {
        push(work, marks, held, followed, Stack { depth, ..stack }, next);
        depth += 1;
        made = next;
    }
    Stack { depth, ..stack }
}
