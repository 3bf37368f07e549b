// States from the one before, several at once, row after row: row m of the first, then that of the next,
// and so on. Two rows of each state are held at a time, that of the number before (`was`) and that of this
// number (`now`), so that of all these states only the last is stored. A row of one state by itself is made
// straight away: the function for several would be a call more for each, and a copy of the plan. Which rows the
// plan has, and how much a buffer holds, stay clauses: a type for a row would hold a copy of the plan, and one
// for a buffer the buffer itself, which is lent on at each call.
ghost use Rattle.std.specs.Prelude.{◌≡◌, ◌⊎◌, ◌+◌, ◌-◌, ◌*◌, ◌≤◌, ◌<◌, length};
ghost use Rattle.eights.specs.Turned.{numbers};
ghost use Rattle.states.specs.Runs.{Apart};
ghost use Rattle.plans.specs.Plans.{rows_in, state_size, keys_size, block_of, half_of, half_with, starts};
ghost use Rattle.states.specs.States.{Advanced, Joined, further_in};
ghost use Rattle.states.specs.Holding.{Slotted, Halves, MadeRow, NextRows, LastRow, tap_of};

use crate::blends::Taps;
use crate::rows::{blend_row, join_row, load_row, start_row, store_row};
use crate::runs::fill_run;
use eights::NOTHING;
use plans::{Followed, Plan, rows_in};

// States that are made at once: from number `first` below `past`.
#[derive(Clone, Copy)]
pub struct Stretch {
    pub first: usize,
    pub past: usize,
}

// A stretch that has a state, with numbers in range; it is asked once, where the value is made.
#[derive(Clone, Copy)]
pub(crate) struct Batch {
    pub(crate) states: Stretch,
    pub(crate) ghost some: { states.first < states.past },
    pub(crate) ghost near: { states.past ≤ 65536 },
}

// Where the rows of the number before and of this number begin: the row of this state, then that of the
// last state where states are linked.
#[derive(Clone, Copy)]
pub(crate) struct Slots {
    pub(crate) was: usize,
    pub(crate) now: usize,
}

fn swapped(slots: Slots) -> Slots
    ensures { (result.was ≡ slots.now) × (result.now ≡ slots.was) }
{
    Slots {
        was: slots.now,
        now: slots.was,
    }
}

// So much further on in both halves.
fn further(slots: Slots, by: usize) -> Slots
    requires { (slots.was + by < 65536) × (slots.now + by < 65536) }
    ensures { (result.was ≡ slots.was + by) × (result.now ≡ slots.now + by) }
{
    Slots {
        was: slots.was + by,
        now: slots.now + by,
    }
}

// How much the rows of one number take, where `more` states are made at once with the first.
pub(crate) fn half_with(followed: Followed, more: usize) -> usize
    requires { more < 65536 }
    ensures { (result ≡ half_with followed.plan more) × (result ≤ 613426320) }
{
    let block = followed.block_size();
    let others = more * block;
    if followed.plan.linked {
        block + block + others
    } else {
        block + others
    }
}

// Whether the walks of row m of state e are those of no steps.
fn starts_at(plan: Plan, e: usize, m: usize) -> bool
    ensures { result ≡ starts plan e m }
{
    if plan.ranked {
        return e == 0;
    }
    m == 0
}

// Where a step finds its number for pixel 0 of plane 0.
fn tap(followed: Followed, slots: Slots, y: usize, x: usize) -> usize
    requires { (slots.was < 40000) × (slots.now < 40000) × (x ≤ 2) }
    ensures { result ≡ tap_of followed.plan slots y + x }
{
    if y == 0 {
        return slots.was + x;
    }
    let block = followed.block_size();
    if y == 1 {
        return slots.was + block + x;
    }
    slots.now + block + x
}

// Row m of the last state is held at a slot where states are linked, zeros where there is none.
fn hold_last(
    held: &mut [u16],
    slot: usize,
    work: &[u16],
    from: usize,
    followed: Followed,
    e: usize,
    m: usize,
)
    requires e_bound { (e < 65536) × (m < rows_in followed.plan e) × (slot + (half_of followed.plan - block_of followed.plan) ≤ length held.old) × (from + state_size followed.plan ≤ length work.now) }
    ensures last_row { LastRow followed.plan e m work.now from (numbers held.new) slot }
    ensures apart { Apart (numbers held.old) (numbers held.new) slot (slot + (half_of followed.plan - block_of followed.plan)) }
{
    if !followed.plan.linked {
        return;
    }
    if e == 0 {
        fill_run(held, slot, followed.block_size(), NOTHING);
    } else {
        let row = followed.row(e - 1, m);
        let at = from + m * (followed.plan.planes * followed.plan.across);
        load_row(held, slot, work, at, followed.plan, row);
    }
}

// Row m of state e, made of the rows of the number before and of the last state's row m, which is held.
fn make_row(held: &mut [u16], work: &[u16], followed: Followed, e: usize, m: usize, slots: Slots)
    requires e_bound { (e < 65536) × (m < rows_in followed.plan e) × (keys_size followed.plan ≤ length work.now) }
    requires slotted { Slotted followed.plan slots (length held.old) }
    ensures { MadeRow followed.plan e m work.now slots (numbers held.old) (numbers held.new) }
{
    let row = followed.row(e, m);
    if starts_at(followed.plan, e, m) {
        start_row(held, slots.now, work, followed.plan, row, m);
        return;
    }
    let reach = followed.plan.reach;
    let taps = Taps {
        t0: tap(followed, slots, reach.y0, reach.x0),
        t1: tap(followed, slots, reach.y1, reach.x1),
        t2: tap(followed, slots, reach.y2, reach.x2),
        to: slots.now + 1,
    };
    blend_row(held, work, followed.plan, row, taps);
}

// Row m of all states, that of the last one first in its half, so that beside the row of each is that of
// the one before; beside that of the first it is held already.
fn next_rows(
    held: &mut [u16],
    work: &[u16],
    followed: Followed,
    batch: Batch,
    m: usize,
    slots: Slots,
)
    requires m_bound { (m < rows_in followed.plan (batch.states.past - 1)) × (keys_size followed.plan ≤ length work.now) }
    requires halves { Halves followed.plan (further_in batch.states) slots (length held.old) }
    ensures { NextRows followed.plan batch.states.first batch.states.past m work.now slots (numbers held.old) (numbers held.new) }
{
    let block = followed.block_size();
    for e in batch.states.first..batch.states.past {
        let at = (batch.states.past - 1 - e) * block;
        make_row(held, work, followed, e, m, further(slots, at));
    }
}

// States from the one before at `from`, the last of them at `to`, which may be the same place: a row is
// read before its place is written. The keys stand at the beginning of the work buffer; what `held` holds
// is free. Row m of the state before the first, which is read from the work buffer, is held beside the place of
// the first one's row, `last` further on. By hand, here and below: as a function of their own these lines would
// copy the plan for each row, inlined or not.
pub(crate) fn make_states(
    work: &mut [u16],
    held: &mut [u16],
    followed: Followed,
    batch: Batch,
    from: usize,
    to: usize,
)
    requires plan_bound { (keys_size followed.plan ≤ from) × (keys_size followed.plan ≤ to) × (from + state_size followed.plan ≤ length work.old) × (to + state_size followed.plan ≤ length work.old) }
    requires fact { (from ≡ to) ⊎ ((from + state_size followed.plan ≤ to) ⊎ (to + state_size followed.plan ≤ from)) }
    requires states_in_bounds { (half_with followed.plan (further_in batch.states) + half_with followed.plan (further_in batch.states) ≤ length held.old) × (length held.old ≤ 40000) }
    ensures advanced { Advanced followed.plan batch.states.first batch.states.past work.old work.new from to }
    ensures held_len_unchanged { length held.new ≡ length held.old }
{
    let first = batch.states.first;
    let e = batch.states.past - 1;
    let half = half_with(followed, e - first);
    let last = half - followed.block_size();
    fill_run(held, 0, half, NOTHING);
    let mut slots = Slots { was: 0, now: half };
    let rows = rows_in(followed.plan, e);
    for m in 0..rows {
        hold_last(held, slots.now + last, work, from, followed, first, m);
        if first < e {
            next_rows(held, work, followed, batch, m, slots);
        } else {
            make_row(held, work, followed, e, m, slots);
        }
        let at = to + m * (followed.plan.planes * followed.plan.across);
        let row = followed.row(e, m);
        store_row(work, at, held, slots.now, followed.plan, row);
        slots = swapped(slots);
    }
}

// States from the one before at `from`, none of which is kept: the last is joined with the state at `ends`,
// so that the best of each pixel rises to the walks of both that meet there. Row m meets row m of the other,
// counted from its last.
pub(crate) fn make_joined(
    best: &mut [u16],
    work: &[u16],
    held: &mut [u16],
    followed: Followed,
    batch: Batch,
    from: usize,
    ends: usize,
)
    requires past_value { (rows_in followed.plan (batch.states.past - 1) ≡ followed.plan.rows) × (keys_size followed.plan ≤ length best.old) }
    requires plan_bound { (keys_size followed.plan ≤ from) × (from + state_size followed.plan ≤ length work.now) × (ends + state_size followed.plan ≤ length work.now) }
    requires states_in_bounds { (half_with followed.plan (further_in batch.states) + half_with followed.plan (further_in batch.states) ≤ length held.old) × (length held.old ≤ 40000) }
    ensures joined { Joined followed.plan batch.states.first batch.states.past work.now best.old best.new from ends }
    ensures held_len_unchanged { length held.new ≡ length held.old }
    ensures best_len_unchanged { length best.new ≡ length best.old }
{
    let first = batch.states.first;
    let e = batch.states.past - 1;
    let half = half_with(followed, e - first);
    let last = half - followed.block_size();
    fill_run(held, 0, half, NOTHING);
    let mut slots = Slots { was: 0, now: half };
    for m in 0..followed.plan.rows {
        hold_last(held, slots.now + last, work, from, followed, first, m);
        if first < e {
            next_rows(held, work, followed, batch, m, slots);
        } else {
            make_row(held, work, followed, e, m, slots);
        }
        let at = ends
            + (followed.plan.rows - 1 - m) * (followed.plan.planes * followed.plan.across);
        let row = followed.row(e, m);
        join_row(best, held, slots.now, work, at, followed.plan, row);
        slots = swapped(slots);
    }
}
