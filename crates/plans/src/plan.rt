// What a sweep's states are made of: which rows they have, which pixels and keys a row has, and where a
// step finds the numbers that it leads on.
ghost use Rattle.std.specs.Prelude.{◌≡◌, ◌+◌, ◌-◌, ◌≤◌, ◌<◌};
ghost use Rattle.plans.specs.Plans.{line_of, first_in, past_in, keys_of, order_of, is_small, row_of, rows_in};

// How many numbers more than pixels each plane of a held row has: a zero before them and one after, and up to
// seven that are made past the row, so that all are whole vectors of eight. A multiple of eight, so that the
// planes begin where vectors do if the first one does and the pixels are eights.
pub const MARGIN: usize = 16;

// Where the three steps find their numbers: in the row before of the same state (y 0), in the row before
// of the last state (1) or in the same row of the last state (2); one pixel back, none or one on, plus one.
// By number: `Readable` and `step_held` of specs/, from which the crates above prove, reckon with both.
#[derive(Clone, Copy)]
pub struct Reach {
    pub x0: usize,
    pub y0: usize,
    pub x1: usize,
    pub y1: usize,
    pub x2: usize,
    pub y2: usize,
}

// Row m of state e has the number e + m, or e where the rows of a state are all of one line (`still`). Its
// pixels are those of a line of the frame, or where rows are `ranked` those of a rank, line plus pixel: lines
// and ranks are counted on from `origin`, or back from it. Only the lines from `top` below `bottom` and the
// pixels from `left` below `right` count.
#[derive(Clone, Copy)]
pub struct Plan {
    // one plane for each number of gaps, none included
    pub planes: usize,
    // how many lines the frame has, and how many pixels a line
    pub lines: usize,
    pub across: usize,
    // how many rows a state has, or fewer where the numbers of rows end
    pub rows: usize,
    pub orders: usize,
    pub origin: usize,
    pub back: bool,
    pub still: bool,
    pub ranked: bool,
    pub top: usize,
    pub bottom: usize,
    pub left: usize,
    pub right: usize,
    // whether a state is made of the last one too
    pub linked: bool,
    // whether walks start at one pixel alone, that of row 0
    pub lone: bool,
    pub pixel: usize,
    // the highest key at which a walk may start with a gap
    pub slack: u16,
    pub reach: Reach,
}

// The pixels of a row, from lo below hi, and where the key of pixel 0 stands: rows of keys follow each
// other, that of a rank past the last line in the place that the rank so many lines before leaves free.
#[derive(Clone, Copy)]
pub struct Row {
    pub lo: usize,
    pub hi: usize,
    pub at: usize,
}

// The line or rank that has this number.
#[tactic(auto, unfolding(crate::specs::Plans::line_of))]
fn line_of(plan: Plan, order: usize) -> usize
    requires { (order < 131072) × (plan.origin < 65536) }
    ensures { (result ≡ line_of plan order) × (result < 196608) }
{
    if plan.back {
        plan.origin.saturating_sub(order)
    } else {
        plan.origin + order
    }
}

// The first pixel of a line or rank, and the one past its last.
#[tactic(auto, unfolding(crate::specs::Plans::first_in))]
fn first_in(plan: Plan, line: usize) -> usize
    requires { line < 196608 }
    ensures { result ≡ first_in plan line }
{
    if plan.ranked {
        plan.left.max((line + 1).saturating_sub(plan.bottom))
    } else {
        plan.left
    }
}

#[tactic(auto, unfolding(crate::specs::Plans::past_in))]
fn past_in(plan: Plan, line: usize) -> usize
    requires { line < 196608 }
    ensures { result ≡ past_in plan line }
{
    if plan.ranked {
        plan.right.min((line + 1).saturating_sub(plan.top))
    } else {
        plan.right
    }
}

// Where the keys of a line or rank begin.
#[tactic(auto, unfolding(crate::specs::Plans::keys_of))]
fn keys_of(plan: Plan, line: usize) -> usize
    requires { (line < 196608) × (plan.across ≤ 1024) }
    ensures { result ≡ keys_of plan line }
{
    if line >= plan.lines {
        (line - plan.lines) * plan.across
    } else {
        line * plan.across
    }
}

// The number of row m of state e.
#[tactic(auto, unfolding(crate::specs::Plans::order_of))]
fn order_of(plan: Plan, e: usize, m: usize) -> usize
    requires { (e < 65536) × (m < 65536) }
    ensures { result ≡ order_of plan e m }
{
    if plan.still { e } else { e + m }
}

// Whether the numbers are so small that no line or key is out of reach.
#[tactic(auto, unfolding(crate::specs::Plans::is_small))]
fn is_small(plan: Plan, e: usize, m: usize) -> bool
    ensures { result ≡ is_small plan e m }
{
    e < 65536 && m < 65536 && plan.origin < 65536 && plan.across <= 1024
}

// Row m of state e; an empty one where the numbers are no row's: so `row_of` of specs/ says it to the crates
// above, and no `Option`.
pub fn row_of(plan: Plan, e: usize, m: usize) -> Row
    ensures { result ≡ row_of plan e m }
{
    if !is_small(plan, e, m) {
        return Row {
            lo: 0,
            hi: 0,
            at: 0,
        };
    }
    let line = line_of(plan, order_of(plan, e, m));
    Row {
        lo: first_in(plan, line),
        hi: past_in(plan, line),
        at: keys_of(plan, line),
    }
}

// How many rows state e has; none past the last number.
#[tactic(auto, unfolding(crate::specs::Plans::rows_in))]
pub fn rows_in(plan: Plan, e: usize) -> usize
    ensures { result ≡ rows_in plan e }
{
    if plan.still {
        if e < plan.orders { plan.rows } else { 0 }
    } else {
        plan.rows.min(plan.orders.saturating_sub(e))
    }
}
