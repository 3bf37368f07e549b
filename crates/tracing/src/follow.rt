// The path on one side of the picked pixel, by the numbers of its walks: from the pixel where a walk that
// counts ends, step by step nearer to the picked one. A neighbour is taken whose number, with the gaps that
// are left, is at least the level.
// By hand: that the path has room for the walk, the three functions that write it say each (`Within`, and its length).
// The path is lent mutably, and their clauses compare it before and after; a type that holds it would put its name
// before each of these, which is no plainer.
ghost use Rattle.std.specs.Prelude.{◌≡◌, cond, ◌+◌, ◌-◌, ◌*◌, ◌≤◌, ◌<◌, length, get_or};
ghost use Rattle.tracing.specs.Scans.{bit_of, key_of, KeysLaid};
ghost use Rattle.plans.specs.Plans.{Sound as PlanSound, row_at};
ghost use Rattle.directions.specs.Numbers.{KeptOn, place_kept};
ghost use Rattle.directions.specs.Doors.{frame_of};
ghost use Rattle.tracing.specs.Sights.{Seen};
ghost use Rattle.walks.specs.Picking.{OnRow};
ghost use Rattle.headings.specs.Trails.{Within, Trail, index_after};
ghost use Rattle.tracing.specs.Following.{Leads, low_along, EndsAt, Stands, Kept, HeldFit};
ghost use Rattle.theory.specs.Modes.{Levels};

use crate::scan::Scan;
use crate::sight::sight_of;
use crate::taken::{fetch, find_end, nearer, top_of};
use directions::Sight;
use headings::{follow_any, index_after};
use plans::{Followed, Plan};
use stacks::Stack;
use walks::{Stand, gaps_after};

// The walk that is followed: the key at which it counts, the index of the picked pixel in the path, how many
// steps it has and how many gaps, and whether it goes on from the pixel or back.
#[derive(Clone, Copy)]
pub(crate) struct Walk {
    pub(crate) key: u16,
    pub(crate) start: usize,
    pub(crate) steps: usize,
    pub(crate) gaps: usize,
    pub(crate) backwards: bool,
}

// A stand on a walk, with the side of the direction that it is on and the stack of that side's states.
#[derive(Clone, Copy)]
struct Standing {
    sight: Sight,
    stack: Stack,
    stand: Stand,
}

// The place of the pixel where a stand is.
fn place_of(scan: Scan, sight: Sight, stand: Stand) -> usize
    requires frame { sight.frame ≡ frame_of scan.width scan.height scan.index }
    requires kept_on { (KeptOn sight.frame sight.plan.ranked) × (PlanSound sight.plan) × (OnRow sight.plan stand) }
    requires lines_value { (sight.plan.lines ≡ sight.frame.lines) × (sight.plan.across ≡ sight.frame.across) }
    ensures { result ≡ place_kept sight.frame sight.plan.ranked (row_at sight.plan stand.state stand.row + stand.pixel) }
{
    let row = plans::row_of(sight.plan, stand.state, stand.row);
    directions::place_kept(
        scan.width,
        scan.height,
        scan.index,
        sight.plan.ranked,
        row.at + stand.pixel,
    )
}

// How many states are made with the one that is wanted, which is the last: on ranks so many, else one.
fn wanted(plan: Plan, states: usize) -> usize
    ensures { result ≡ cond plan.ranked states 1 }
{
    if plan.ranked { states } else { 1 }
}

// The path from a stand at its far end to the picked pixel, a step nearer at each turn. Since the walk counts,
// there is always a nearer pixel.
fn walk_in(
    path: &mut [usize],
    work: &mut [u16],
    marks: &mut [usize],
    held: &mut [u16],
    plate: &[i16],
    scan: Scan,
    walk: Walk,
    end: Standing,
)
    requires positive { (length plate.now ≡ scan.width * scan.height) × (Levels plate.now) × (1 ≤ walk.key) }
    requires path_len_bound { (length path.old ≤ 65536) × (walk.start < length path.old) × (walk.steps ≤ scan.steps) }
    requires within { Within walk.backwards (length path.old) walk.start walk.steps }
    requires start_bound { (get_or path.old walk.start 0 < scan.width * scan.height) × (Seen scan walk.backwards (get_or path.old walk.start 0) end.sight) }
    requires kept { Kept scan walk.backwards plate.now (get_or path.old walk.start 0) end.sight work.old marks.old end.stack }
    requires held_fit { (HeldFit end.sight.plan (length held.old)) × (end.stand.gaps ≡ walk.gaps) }
    requires stands { (Stands scan walk.backwards plate.now (get_or path.old walk.start 0) end.sight walk.key walk.steps end.stand) × (EndsAt scan plate.now walk.key (place_kept end.sight.frame end.sight.plan.ranked (row_at end.sight.plan end.stand.state end.stand.row + end.stand.pixel))) }
    ensures trail { Trail scan.width scan.height (bit_of scan) walk.backwards path.old path.new walk.start walk.steps }
    ensures steps_bound { low_along walk.backwards (key_of scan plate.now) walk.key path.new walk.start (walk.steps + 1) ≤ walk.gaps }
    ensures ends_at { EndsAt scan plate.now walk.key (get_or path.new (index_after walk.backwards walk.start walk.steps) 0) }
    ensures keys_laid { KeysLaid scan plate.now work.new }
{
    let plan = end.sight.plan;
    let followed = Followed { plan };
    let mut stack = end.stack;
    let mut stand = end.stand;
    // n steps are left after this one
    for n in (0..walk.steps).rev() {
        let place = place_of(scan, end.sight, stand);
        let i = index_after(walk.start, n + 1, walk.backwards);
        path[i] = place;
        let left = gaps_after(
            frames::key_by(scan.setting.mode, plate[place]),
            walk.key,
            stand.gaps,
        );
        let here = Stand {
            gaps: left,
            ..stand
        };
        stack = fetch(
            work,
            marks,
            held,
            followed,
            stack,
            wanted(plan, stand.state),
        );
        stand = nearer(work, top_of(followed, stack), followed, here, walk.key).unwrap();
    }
}

// The path of a walk that counts at a key above the lowest: so there is a pixel where it ends.
fn follow_counted(path: &mut [usize], work: &mut [u16], plate: &[i16], scan: Scan, walk: Walk)
    requires positive { 1 ≤ walk.key }
    requires plate_len { (length plate.now ≡ scan.width * scan.height) × (4 * (scan.setting.gaps + 1) * (scan.width * scan.height) ≤ length work.old) × (walk.steps ≤ scan.steps) × (walk.gaps ≤ scan.setting.gaps) }
    requires keys_laid { KeysLaid scan plate.now work.old }
    requires path_len_bound { (length path.old ≤ 65536) × (walk.start < length path.old) }
    requires within { Within walk.backwards (length path.old) walk.start walk.steps }
    requires leads { Leads scan.slack scan.width scan.height (bit_of scan) walk.backwards (key_of scan plate.now) walk.key scan.spare walk.steps walk.gaps (get_or path.old walk.start 0) }
    ensures trail { Trail scan.width scan.height (bit_of scan) walk.backwards path.old path.new walk.start walk.steps }
    ensures steps_bound { low_along walk.backwards (key_of scan plate.now) walk.key path.new walk.start (walk.steps + 1) ≤ walk.gaps }
    ensures ends_at { EndsAt scan plate.now walk.key (get_or path.new (index_after walk.backwards walk.start walk.steps) 0) }
    ensures keys_laid_2 { KeysLaid scan plate.now work.new }
{
    let mut held = [0u16; 18720];
    let mut marks = [0usize; 64];
    let start = walk.start;
    let sight = sight_of(scan, walk.backwards, path[start]);
    let plan = sight.plan;
    let followed = Followed { plan };
    let base = followed.keys_size();
    let empty = Stack {
        base,
        places: stacks::places_in(work.len() - base, followed.state_size()),
        depth: 0,
    };
    let stack = fetch(
        work,
        &mut marks,
        &mut held,
        followed,
        empty,
        wanted(plan, walk.steps + 1),
    );
    let top = top_of(followed, stack);
    let stand = find_end(
        work, top, followed, walk.steps, walk.gaps, walk.key, scan.slack,
    )
    .unwrap();
    let end = Standing {
        sight,
        stack,
        stand,
    };
    walk_in(path, work, &mut marks, &mut held, plate, scan, walk, end);
}

// Writes the path from the picked pixel on, or back, where a walk of so many steps with so many gaps counts.
// At the lowest key every walk does.
pub(crate) fn follow(path: &mut [usize], work: &mut [u16], plate: &[i16], scan: Scan, walk: Walk)
    requires plate_len { (length plate.now ≡ scan.width * scan.height) × (4 * (scan.setting.gaps + 1) * (scan.width * scan.height) ≤ length work.old) × (walk.steps ≤ scan.steps) × (walk.gaps ≤ scan.setting.gaps) }
    requires keys_laid { KeysLaid scan plate.now work.old }
    requires path_len_bound { (length path.old ≤ 65536) × (walk.start < length path.old) }
    requires within { Within walk.backwards (length path.old) walk.start walk.steps }
    requires leads { Leads scan.slack scan.width scan.height (bit_of scan) walk.backwards (key_of scan plate.now) walk.key scan.spare walk.steps walk.gaps (get_or path.old walk.start 0) }
    ensures trail { Trail scan.width scan.height (bit_of scan) walk.backwards path.old path.new walk.start walk.steps }
    ensures steps_bound { low_along walk.backwards (key_of scan plate.now) walk.key path.new walk.start (walk.steps + 1) ≤ walk.gaps }
    ensures ends_at { EndsAt scan plate.now walk.key (get_or path.new (index_after walk.backwards walk.start walk.steps) 0) }
    ensures keys_laid_2 { KeysLaid scan plate.now work.new }
{
    if walk.key == 0 {
        follow_any(
            path,
            scan.width,
            scan.height,
            scan.index,
            walk.backwards,
            walk.start,
            walk.steps,
        );
        return;
    }
    follow_counted(path, work, plate, scan, walk);
}
