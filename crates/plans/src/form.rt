// Which plans a sweep can follow: each door of the engine that takes a plan asks this first. The tests follow one
// another: that a plan is in its limits and in its frame stands in three private contracts, as a type for each would
// serve those three calls alone.
ghost use Rattle.std.specs.Prelude.{◌≡◌, true};
ghost use Rattle.plans.specs.Forms.{among, in_limits, in_frame, orders_of, origin_of, is_counted, is_shaped, step_on_lines, step_on_ranks, step_held, steps_held, well_formed};

use crate::plan::Plan;

// Whether a plate can have so many lines, pixels in a line or rows.
#[tactic(auto, unfolding(crate::specs::Forms::among))]
fn is_side(n: usize) -> bool
    ensures { result ≡ among 1 1024 n }
{
    (1..=1024).contains(&n)
}

// Whether the sizes are those that a plate can have, with planes for up to 8 gaps.
#[tactic(auto, using(crate::proofs::FormTests::product_small), unfolding(crate::specs::Forms::among, crate::specs::Forms::in_limits))]
fn in_limits(plan: Plan) -> bool
    ensures { result ≡ in_limits plan }
{
    (1..=9).contains(&plan.planes)
        && is_side(plan.lines)
        && is_side(plan.across)
        && is_side(plan.rows)
        && plan.lines * plan.across <= 65536
}

// Whether the lines and pixels that count are some of the frame's.
#[tactic(auto, unfolding(crate::specs::Forms::in_frame))]
fn in_frame(plan: Plan) -> bool
    ensures { result ≡ in_frame plan }
{
    plan.top < plan.bottom
        && plan.bottom <= plan.lines
        && plan.left < plan.right
        && plan.right <= plan.across
}

// How many lines or ranks the area has.
#[tactic(auto, using(crate::proofs::FormFacts::limits_facts, crate::proofs::FormFacts::frame_facts), unfolding(crate::specs::Forms::orders_of))]
fn orders_of(plan: Plan) -> usize
    requires { (in_limits plan ≡ true) × (in_frame plan ≡ true) }
    ensures { result ≡ orders_of plan }
{
    if plan.ranked {
        plan.bottom - plan.top + (plan.right - plan.left) - 1
    } else {
        plan.bottom - plan.top
    }
}

// With which of them the count begins: the first, or the last where it goes back.
#[tactic(auto, using(crate::proofs::FormFacts::limits_facts, crate::proofs::FormFacts::frame_facts), unfolding(crate::specs::Forms::origin_of))]
fn origin_of(plan: Plan) -> usize
    requires { (in_limits plan ≡ true) × (in_frame plan ≡ true) }
    ensures { result ≡ origin_of plan }
{
    match (plan.back, plan.ranked) {
        (true, true) => plan.bottom + plan.right - 2,
        (true, false) => plan.bottom - 1,
        (false, true) => plan.top + plan.left,
        (false, false) => plan.top,
    }
}

// Whether the rows are counted through the area from one end.
#[tactic(auto, unfolding(crate::specs::Forms::is_counted))]
fn is_counted(plan: Plan) -> bool
    requires { (in_limits plan ≡ true) × (in_frame plan ≡ true) }
    ensures { result ≡ is_counted plan }
{
    plan.orders == orders_of(plan) && plan.origin == origin_of(plan)
}

// Whether the rows are whole lines, or ranks of which a state has one after the other.
#[tactic(auto, unfolding(crate::specs::Forms::is_shaped))]
fn is_shaped(plan: Plan) -> bool
    ensures { result ≡ is_shaped plan }
{
    if plan.ranked {
        !plan.still && plan.linked && plan.across <= plan.lines
    } else {
        plan.left == 0 && plan.right == plan.across
    }
}

// Whether a step reads what is held, where rows are whole lines.
#[tactic(auto, unfolding(crate::specs::Forms::step_on_lines))]
fn step_on_lines(linked: bool, y: usize, x: usize) -> bool
    ensures { result ≡ step_on_lines linked y x }
{
    let before = if linked { 2 } else { 0 };
    x <= 2 && y <= before
}

// The same where rows are ranks: counted back, a step leads one pixel further on.
#[tactic(auto, unfolding(crate::specs::Forms::among, crate::specs::Forms::step_on_ranks))]
fn step_on_ranks(back: bool, y: usize, x: usize) -> bool
    ensures { result ≡ step_on_ranks back y x }
{
    match y {
        2 if back => (1..=2).contains(&x),
        2 => (0..=1).contains(&x),
        1 if back => x == 2,
        1 => x == 0,
        _ => false,
    }
}

#[tactic(auto, unfolding(crate::specs::Forms::step_held))]
fn step_held(plan: Plan, y: usize, x: usize) -> bool
    ensures { result ≡ step_held plan y x }
{
    if plan.ranked {
        step_on_ranks(plan.back, y, x)
    } else {
        step_on_lines(plan.linked, y, x)
    }
}

// Whether all three steps read what is held.
#[tactic(auto, unfolding(crate::specs::Forms::steps_held))]
fn steps_held(plan: Plan) -> bool
    ensures { result ≡ steps_held plan }
{
    step_held(plan, plan.reach.y0, plan.reach.x0)
        && step_held(plan, plan.reach.y1, plan.reach.x1)
        && step_held(plan, plan.reach.y2, plan.reach.x2)
}

#[tactic(auto, unfolding(crate::specs::Forms::well_formed))]
pub fn is_well_formed(plan: Plan) -> bool
    ensures { result ≡ well_formed plan }
{
    in_limits(plan) && in_frame(plan) && is_counted(plan) && is_shaped(plan) && steps_held(plan)
}
