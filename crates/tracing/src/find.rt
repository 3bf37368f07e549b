// The best path through the picked pixel, by numbers.
// By hand: that an index is one of the four directions, two methods here and `Scan::new` say each. headings and plate
// give and take it as a plain number: a type of it would be made and taken apart at each use, which is no plainer.
ghost use Rattle.std.specs.Prelude.{◌≡◌, true, ◌+◌, ◌-◌, ◌*◌, ◌^◌, ◌≤◌, ◌<◌, Some, min, length};
ghost use Rattle.plate.specs.Sizes.{GoodSize};
ghost use Rattle.tracing.specs.Scans.{key_of};
ghost use Rattle.engine.specs.Finishing.{Accepted};
ghost use Rattle.headings.specs.Usable.{usable, FirstUsable};
ghost use Rattle.tracing.specs.Finding.{FoundIn, FoundAt, BestOf};
ghost use Rattle.theory.specs.Ranks.{rank};
ghost use Rattle.theory.specs.Modes.{Levels};

use crate::notes::note_side;
use crate::scan::Scan;
use crate::sight::lay_keys;
use crate::taken::search;
use headings::{is_usable, rank_of};
use plate::Setting;
use walks::{Found, Paths};

// Room for the notes of one side: the most steps and gaps that a path can have.
const NOTES: usize = 9216;

// All paths of one direction through the pixel x. The keys are laid once for both sides.
fn find_in(work: &mut [u16], plate: &[i16], scan: Scan, x: usize, found: Found) -> Found
    requires { (length plate.now ≡ scan.width * scan.height) × (x < scan.width * scan.height) × (4 * (scan.setting.gaps + 1) * (scan.width * scan.height) ≤ length work.old) }
    ensures found_in { FoundIn scan.slack scan.width scan.height scan.steps scan.setting.gaps scan.spare (key_of scan plate.now) x scan.index found result }
    ensures levels { Levels plate.now }
{
    let paths = Paths {
        steps: scan.steps,
        gaps: scan.setting.gaps,
        spare: scan.spare,
    };
    let own = frames::key_by(scan.setting.mode, plate[x]);
    let rank = rank_of(scan.width, scan.height, scan.index, x);
    let mut ends = [0u16; NOTES];
    let mut goes = [0u16; NOTES];
    lay_keys(work, plate, scan);
    note_side(&mut ends, work, scan, true, x);
    note_side(&mut goes, work, scan, false, x);
    search(&ends, &goes, paths, own, scan.index, rank, found)
}

// What a trace is asked: a plate with its setting, and the place of the picked pixel. All checks have passed.
#[derive(Clone, Copy)]
pub(crate) struct Asked<'a> {
    pub(crate) width: usize,
    pub(crate) height: usize,
    pub(crate) plate: &'a [i16],
    pub(crate) setting: Setting,
    pub(crate) x: usize,
}

impl<'a> Asked<'a> {
    // A path in a usable direction, at the lowest key, where each counts.
    fn lowest(&self, index: usize) -> Found
        requires good_size { (GoodSize self.now.width self.now.height) × (1 ≤ self.now.setting.length) }
        requires x_bound { (self.now.x < self.now.width * self.now.height) × (index < 4) × (usable self.now.width self.now.height self.now.setting index ≡ true) }
        ensures { (result.index ≡ index) × (result.key ≡ 0) × (result.before ≡ min (rank self.now.width self.now.height (2 ^ index) self.now.x) (self.now.setting.length - 1)) × (result.gaps ≡ 0) }
    {
        let rank = rank_of(self.width, self.height, index, self.x);
        Found {
            index,
            key: 0,
            before: rank.min(self.setting.length - 1),
            gaps: 0,
        }
    }

    // All paths of the usable direction at this index.
    fn find_at(&self, work: &mut [u16], index: usize, found: Found) -> Found
        requires accepted { Accepted self.now.width self.now.height self.now.setting (length self.now.plate.now) (self.now.width * self.now.height) (length work.old) }
        requires x_bound { (self.now.x < self.now.width * self.now.height) × (index < 4) × (usable self.now.width self.now.height self.now.setting index ≡ true) }
        ensures found_at { FoundAt self.now.width self.now.height self.now.setting self.now.plate.now self.now.x index found result }
        ensures levels { Levels self.now.plate.now }
    {
        let scan = Scan::new(self.width, self.height, self.setting, index);
        find_in(work, self.plate, scan, self.x, found)
    }

    // The best path in all usable directions, of which the first is given.
    pub(crate) fn find(&self, work: &mut [u16], first: usize) -> Found
        requires accepted { Accepted self.now.width self.now.height self.now.setting (length self.now.plate.now) (self.now.width * self.now.height) (length work.old) }
        requires x_bound { self.now.x < self.now.width * self.now.height }
        requires first_usable { FirstUsable self.now.width self.now.height self.now.setting (Some first) }
        ensures best_of { BestOf self.now.width self.now.height self.now.setting self.now.plate.now self.now.x 4 result }
        ensures levels { Levels self.now.plate.now }
    {
        let low = self.lowest(first);
        let mut found = self.find_at(work, first, low);
        for index in first + 1..plate::DIRECTIONS {
            if is_usable(self.width, self.height, self.setting, index) {
                found = self.find_at(work, index, found);
            }
        }
        found
    }
}
