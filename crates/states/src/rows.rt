// One row, with all its planes: held, made of held ones, put into a state, joined with one of another
// state. A held row has pixel x at x + 1 of each plane, and a zero before and after its pixels; its numbers
// are turned (runs.rt). A row goes by the place where it begins and not as a slice: it is written into the
// buffer that the rows it is made of lie in. That the row is one of the plan and that its place fits (RowOf,
// SlotOf) stay clauses: a type would hold a copy of the plan for each row, and the buffer that is lent on at
// each call.
ghost use Rattle.std.specs.Prelude.{ℕ, ◌+◌, ◌-◌, ◌*◌, ◌≤◌, ◌<◌, length, get_or};
ghost use Rattle.eights.specs.Turned.{numbers};
ghost use Rattle.states.specs.Runs.{Apart};
ghost use Rattle.plans.specs.Plans.{pitch_of, block_of, row_size, starts_at};
ghost use Rattle.states.specs.Rows.{gate, RowPut, RowHeld, RowStored, RowJoined, RowOf, SlotOf, TapsOf, Started, blended};
ghost use Rattle.theory.specs.BestWalks.{alone};

use crate::blends::{Taps, blend_planes};
use crate::runs::{fill_run, fold_run, raise_run, turn_run};
use eights::NOTHING;
use plans::{MARGIN, Plan, Row};

// A zero before and after the pixels of a row.
fn guard(held: &mut [u16], slot: usize, plan: Plan, row: Row)
    requires { (RowOf plan row) × (SlotOf plan slot (length held.old)) }
    ensures by_index { (f : ℕ → ℕ → ℕ) → RowPut (numbers held.old) slot plan.planes (pitch_of plan) row.lo row.hi f → RowHeld (numbers held.new) slot plan.planes (pitch_of plan) row.lo row.hi f }
    ensures apart { Apart (numbers held.old) (numbers held.new) slot (slot + block_of plan) }
{
    for j in 0..plan.planes {
        let at = slot + j * (plan.across + MARGIN);
        held[at + row.lo] = NOTHING;
        held[at + row.hi + 1] = NOTHING;
    }
}

// The row of a state that begins at `at` is held at a slot.
pub(crate) fn load_row(held: &mut [u16], slot: usize, work: &[u16], at: usize, plan: Plan, row: Row)
    requires { (RowOf plan row) × (SlotOf plan slot (length held.old)) × (at + row_size plan ≤ length work.now) }
    ensures row_held { RowHeld (numbers held.new) slot plan.planes (pitch_of plan) row.lo row.hi (λ (j x : ℕ). get_or work.now (at + (j * plan.across + x)) 0) }
    ensures apart { Apart (numbers held.old) (numbers held.new) slot (slot + block_of plan) }
{
    let n = row.hi - row.lo;
    for j in 0..plan.planes {
        let to = slot + j * (plan.across + MARGIN) + 1 + row.lo;
        let from = at + j * plan.across + row.lo;
        turn_run(&mut held[to..to + n], &work[from..from + n]);
    }
    guard(held, slot, plan, row);
}

// The held row comes to `at`, where a row of a state begins.
pub(crate) fn store_row(
    work: &mut [u16],
    at: usize,
    held: &[u16],
    slot: usize,
    plan: Plan,
    row: Row,
)
    requires { (RowOf plan row) × (SlotOf plan slot (length held.now)) × (at + row_size plan ≤ length work.old) }
    ensures by_index { (f : ℕ → ℕ → ℕ) → RowHeld (numbers held.now) slot plan.planes (pitch_of plan) row.lo row.hi f → RowStored work.new at plan.planes plan.across row.lo row.hi f }
    ensures apart { Apart work.old work.new at (at + row_size plan) }
{
    let n = row.hi - row.lo;
    for j in 0..plan.planes {
        let to = at + j * plan.across + row.lo;
        let from = slot + j * (plan.across + MARGIN) + 1 + row.lo;
        turn_run(&mut work[to..to + n], &held[from..from + n]);
    }
}

// The walks of no steps from pixel `first` below `past`: the key in plane 0, and in the others the key
// raised to the plan's slack, up to which the pixel may be a gap. This is the one place that says what a
// walk starts with, on either side.
fn start_run(
    held: &mut [u16],
    slot: usize,
    keys: &[u16],
    at: usize,
    plan: Plan,
    first: usize,
    past: usize,
)
    requires le_planes { (1 ≤ plan.planes) × (plan.planes ≤ 9) × (plan.across ≤ 1024) × (first ≤ past) × (past ≤ plan.across) }
    requires slot_of { (SlotOf plan slot (length held.old)) × (at + plan.across ≤ length keys.now) }
    ensures { Started (numbers held.old) (numbers held.new) (λ (x : ℕ). get_or keys.now (at + x) 0) slot plan first past }
{
    let n = past - first;
    let own = &keys[at + first..at + past];
    let low = slot + 1 + first;
    turn_run(&mut held[low..low + n], own);
    for j in 1..plan.planes {
        let to = low + j * (plan.across + MARGIN);
        raise_run(&mut held[to..to + n], own, plan.slack);
    }
}

// The walks of no steps at the pixels of a row where a walk may start, and zeros elsewhere.
pub(crate) fn start_row(held: &mut [u16], slot: usize, keys: &[u16], plan: Plan, row: Row, m: usize)
    requires { (RowOf plan row) × (SlotOf plan slot (length held.old)) × (row.at + plan.across ≤ length keys.now) }
    ensures row_held { RowHeld (numbers held.new) slot plan.planes (pitch_of plan) row.lo row.hi (λ (j x : ℕ). gate (starts_at plan m x) (alone plan.slack (get_or keys.now (row.at + x) 0) j)) }
    ensures apart { Apart (numbers held.old) (numbers held.new) slot (slot + block_of plan) }
{
    fill_run(held, slot, plan.planes * (plan.across + MARGIN), NOTHING);
    if plan.lone {
        if m > 0 {
            return;
        }
        if plan.pixel < row.lo {
            return;
        }
        if plan.pixel >= row.hi {
            return;
        }
        start_run(held, slot, keys, row.at, plan, plan.pixel, plan.pixel + 1);
        return;
    }
    start_run(held, slot, keys, row.at, plan, row.lo, row.hi);
}

// A row made of held ones: `taps` are where pixel 0 of plane 0 finds its three numbers, and where it is.
pub(crate) fn blend_row(held: &mut [u16], keys: &[u16], plan: Plan, row: Row, taps: Taps)
    requires row_of { (RowOf plan row) × (TapsOf (block_of plan) taps.t0 taps.t1 taps.t2 taps.to (length held.old)) }
    requires across_in_bounds { (row.at + plan.across ≤ length keys.now) × (length held.old ≤ 40000) }
    ensures row_held { RowHeld (numbers held.new) (taps.to - 1) plan.planes (pitch_of plan) row.lo row.hi (blended (numbers held.old) (pitch_of plan) taps.t0 taps.t1 taps.t2 (λ (x : ℕ). get_or keys.now (row.at + x) 0)) }
    ensures apart { Apart (numbers held.old) (numbers held.new) (taps.to - 1) (taps.to - 1 + block_of plan) }
{
    blend_planes(held, keys, row, taps, plan.across + MARGIN, plan.planes);
    guard(held, taps.to - 1, plan, row);
}

// The best of the pixels of a row rises to the held row joined with the one of another state at `at`: the
// planes of the one from the lowest on, those of the other from the highest down.
pub(crate) fn join_row(
    best: &mut [u16],
    held: &[u16],
    slot: usize,
    work: &[u16],
    at: usize,
    plan: Plan,
    row: Row,
)
    requires { (RowOf plan row) × (SlotOf plan slot (length held.now)) × (at + row_size plan ≤ length work.now) × (row.at + plan.across ≤ length best.old) }
    ensures { (f g : ℕ → ℕ → ℕ) → RowHeld (numbers held.now) slot plan.planes (pitch_of plan) row.lo row.hi f → RowStored work.now at plan.planes plan.across row.lo row.hi g → RowJoined best.old best.new row.at plan.planes row.lo row.hi f g }
{
    let n = row.hi - row.lo;
    let to = row.at + row.lo;
    for j in 0..plan.planes {
        let h = slot + j * (plan.across + MARGIN) + 1 + row.lo;
        let w = at + (plan.planes - 1 - j) * plan.across + row.lo;
        fold_run(&mut best[to..to + n], &held[h..h + n], &work[w..w + n]);
    }
}
