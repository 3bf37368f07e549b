// The plans of a direction's sweeps. Lines, flips and offsets are worked out from the entries of the step
// table.
ghost use Rattle.std.specs.Prelude.{◌≡◌, true, false, cond, ◌+◌, ◌-◌, ◌≤◌, ◌<◌};
ghost use Rattle.frames.specs.Frames.{Bounded};
ghost use Rattle.directions.specs.Plans.{Oriented, AreaOf, whole_area, pixels_on, lines_on, row_by, reach_in, area_plan, straight_plan, still_plan, ranked_plan, filter_plan, by_ranks, spare_of};
ghost use Rattle.theory.specs.BestWalks.{gap_end};
ghost use Rattle.directions.specs.Traces.{trace_area, trace_plan, trace_states};

use crate::frame::Spot;
use frames::Frame;
use plans::{Plan, Reach};

// The lines from `top` below `bottom` and the pixels from `left` below `right`; and where a walk may start:
// at one pixel alone, or at all; and up to which key with a gap.
#[derive(Clone, Copy)]
pub struct Area {
    pub top: usize,
    pub bottom: usize,
    pub left: usize,
    pub right: usize,
    pub lone: bool,
    pub pixel: usize,
    pub slack: u16,
}

// A direction as it is swept: its place in the step table, whether its lines are rows of the plate, and
// whether it is swept from the last line back.
#[derive(Clone, Copy)]
pub struct Course {
    pub index: usize,
    pub rows: bool,
    pub back: bool,
}

impl Area {
    // The whole frame, where a walk may start at every pixel, with a gap up to this key.
    fn whole(frame: Frame, slack: u16) -> Area
        ensures { result ≡ whole_area frame slack }
    {
        Area {
            top: 0,
            bottom: frame.lines,
            left: 0,
            right: frame.across,
            lone: false,
            pixel: 0,
            slack,
        }
    }
}

// A direction's frame, and the course by which one side of the direction is swept.
#[derive(Clone, Copy)]
pub(crate) struct Side {
    pub(crate) frame: Frame,
    pub(crate) course: Course,
    // the frame is the one of the course's direction, on a plate
    ghost oriented: { Oriented frame course },
    ghost bounded: { Bounded frame },
}

// That a spot lies in the frame, and that a length fits it, is asked by three functions each: other crates see
// a spot as it is, and a type around one length would be no plainer than the clause.
impl Side {
    // By how many pixels of a line the numbered step goes, plus one, as the frame counts them.
    fn pixels_on(self, number: usize) -> usize
        ensures { (result ≡ pixels_on self.frame self.course number) × (result ≤ 2) }
    {
        let turned = self.frame.mirrored != self.course.back;
        if self.course.rows {
            return frames::columns_on(self.course.index, number, turned);
        }
        frames::rows_on(self.course.index, number, turned)
    }

    // Whether the numbered step goes to another line.
    fn lines_on(self, number: usize) -> bool
        ensures { result ≡ lines_on self.course number }
    {
        if self.course.rows {
            return frames::rows_on(self.course.index, number, false) != 1;
        }
        frames::columns_on(self.course.index, number, false) != 1
    }

    // In which row the numbered step finds its number. A straight direction looks at the row before. On
    // single lines the row before is of one step fewer, and so is the last state on ranks, where a step to
    // another line and another pixel goes two ranks on.
    fn row_by(self, ranked: bool, number: usize) -> usize
        ensures { result ≡ row_by self.frame self.course ranked number }
    {
        if !self.frame.diagonal {
            return 0;
        }
        let moves = self.lines_on(number);
        if ranked {
            if moves && self.pixels_on(number) != 1 {
                return 1;
            }
            return 2;
        }
        if moves { 1 } else { 0 }
    }

    // Where the three steps of the table find their numbers.
    pub(crate) fn reach_of(self, ranked: bool) -> Reach
        ensures { result ≡ reach_in self.frame self.course.rows ranked self.course.back }
    {
        let x0 = self.pixels_on(0);
        let y0 = self.row_by(ranked, 0);
        let x1 = self.pixels_on(1);
        let y1 = self.row_by(ranked, 1);
        let x2 = self.pixels_on(2);
        let y2 = self.row_by(ranked, 2);
        Reach {
            x0,
            y0,
            x1,
            y1,
            x2,
            y2,
        }
    }

    // Rows of the lines, or ranks, of an area: what all plans of a frame have in common.
    fn area_plan(self, area: Area, ranked: bool, rows: usize, planes: usize) -> Plan
        requires { area.top < area.bottom }
        ensures { result ≡ area_plan self.frame self.course area ranked rows planes }
    {
        let origin = if self.course.back {
            area.bottom - 1
        } else {
            area.top
        };
        let reach = self.reach_of(ranked);
        Plan {
            planes,
            lines: self.frame.lines,
            across: self.frame.across,
            rows,
            orders: area.bottom - area.top,
            origin,
            back: self.course.back,
            still: false,
            ranked,
            top: area.top,
            bottom: area.bottom,
            left: area.left,
            right: area.right,
            linked: self.frame.diagonal,
            lone: area.lone,
            pixel: area.pixel,
            slack: area.slack,
            reach,
        }
    }

    // Windows of whole lines, for a straight direction: they need each other not at all.
    fn straight_plan(self, area: Area, rows: usize, planes: usize) -> Plan
        requires { (AreaOf self.frame area) × (self.frame.diagonal ≡ false) }
        ensures { result ≡ straight_plan self.frame self.course.back area rows planes }
    {
        Plan {
            left: 0,
            right: self.frame.across,
            ..self.area_plan(area, false, rows, planes)
        }
    }

    // Single lines, for a diagonal direction with short paths.
    fn still_plan(self, rows: usize, planes: usize, slack: u16) -> Plan
        requires { self.frame.diagonal ≡ true }
        ensures { result ≡ still_plan self.frame self.course.rows self.course.back rows planes slack }
    {
        let area = Area::whole(self.frame, slack);
        Plan {
            still: true,
            ..self.area_plan(area, false, rows, planes)
        }
    }

    // Ranks, for a diagonal direction with long paths.
    fn ranked_plan(self, area: Area, rows: usize, planes: usize) -> Plan
        requires { (AreaOf self.frame area) × (self.frame.diagonal ≡ true) }
        ensures { result ≡ ranked_plan self.frame self.course.rows self.course.back area rows planes }
    {
        let origin = if self.course.back {
            area.bottom + area.right - 2
        } else {
            area.top + area.left
        };
        Plan {
            orders: area.bottom - area.top + (area.right - area.left) - 1,
            origin,
            ..self.area_plan(area, true, rows, planes)
        }
    }

    // How many steps more than a path of this length the direction's longest paths have.
    fn spare_of(self, length: usize) -> usize
        requires { length ≤ self.frame.lines + cond self.frame.diagonal (self.frame.across - 1) 0 }
        ensures { (result ≡ spare_of self.frame length) × (result < 2048) }
    {
        if self.frame.diagonal {
            return self.frame.lines + (self.frame.across - 1) - length;
        }
        self.frame.lines - length
    }

    // Whether a diagonal direction is swept by ranks: where four states of them find room, and they are not
    // many more than the path has pixels.
    fn by_ranks(self, length: usize) -> bool
        requires { (length ≤ 1024) × (length ≤ self.frame.lines + cond self.frame.diagonal (self.frame.across - 1) 0) }
        ensures { result ≡ by_ranks self.frame length }
    {
        let rows = self.spare_of(length) + 1;
        if rows > self.frame.lines {
            return false;
        }
        4 * rows <= 5 * length
    }

    // The plan of one side of the filter: its walks start at the ends of paths.
    pub(crate) fn filter_plan(self, length: usize, planes: usize, ends: usize) -> Plan
        requires { (1 ≤ length) × (length ≤ 1024) × (length ≤ self.frame.lines + cond self.frame.diagonal (self.frame.across - 1) 0) }
        ensures { result ≡ filter_plan self.frame self.course.rows self.course.back length planes (gap_end ends) }
    {
        let slack = plans::gap_end(ends);
        let area = Area::whole(self.frame, slack);
        if !self.frame.diagonal {
            return self.straight_plan(area, length, planes);
        }
        if self.by_ranks(length) {
            let rows = self.spare_of(length) + 1;
            return self.ranked_plan(area, rows, planes);
        }
        self.still_plan(length, planes, slack)
    }

    // The lines and pixels from a spot on, or up to it; walks start at the spot alone, which may be a gap
    // whatever the setting says of ends: it is where these walks end that a path does.
    fn trace_area(self, spot: Spot) -> Area
        requires { (spot.line < self.frame.lines) × (spot.pixel < self.frame.across) }
        ensures { result ≡ trace_area self.frame self.course.back spot }
    {
        let area = Area {
            lone: true,
            pixel: spot.pixel,
            ..Area::whole(self.frame, plans::MAX_KEY)
        };
        if self.course.back {
            return Area {
                bottom: spot.line + 1,
                right: spot.pixel + 1,
                ..area
            };
        }
        Area {
            top: spot.line,
            left: spot.pixel,
            ..area
        }
    }

    // The plan of one side of a trace.
    pub(crate) fn trace_plan(self, length: usize, planes: usize, spot: Spot) -> Plan
        requires { (spot.line < self.frame.lines) × (spot.pixel < self.frame.across) }
        ensures { result ≡ trace_plan self.frame self.course.rows self.course.back length planes spot }
    {
        let area = self.trace_area(spot);
        if self.frame.diagonal {
            let rows = length.min(area.right - area.left);
            return self.ranked_plan(area, rows, planes);
        }
        let rows = length.min(area.bottom - area.top);
        self.straight_plan(area, rows, planes)
    }

    // How many states one side of a trace has.
    pub(crate) fn trace_states(self, length: usize, spot: Spot) -> usize
        requires { (spot.line < self.frame.lines) × (spot.pixel < self.frame.across) }
        ensures { result ≡ trace_states self.frame self.course.back length spot }
    {
        if !self.frame.diagonal {
            return 1;
        }
        let area = self.trace_area(spot);
        length.min(area.bottom - area.top + (area.right - area.left) - 1)
    }
}
