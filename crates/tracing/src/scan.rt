// One direction of a trace. By hand: that the plate has the scan's pixels, and that the work buffer has room for its
// states, the functions of find.rt, sight.rt, notes.rt, draw.rt and follow.rt say of slices beside the scan. Both
// are lent; in a type that holds them a clause would read `scan.now.plate.now` for `plate.now`, which is no plainer.
ghost use Rattle.std.specs.Prelude.{◌≡◌, ◌+◌, ◌^◌, ◌≤◌, ◌<◌};
ghost use Rattle.plate.specs.Paths.{span};
ghost use Rattle.plate.specs.Sizes.{GoodSize};

use plate::Setting;

// What stays the same while one direction is looked at.
#[derive(Clone, Copy)]
pub(crate) struct Scan {
    pub(crate) width: usize,
    pub(crate) height: usize,
    pub(crate) setting: Setting,
    // the direction's place in the step table
    pub(crate) index: usize,
    // the steps of a path: its length less one
    pub(crate) steps: usize,
    // how many steps more the direction's longest paths have
    pub(crate) spare: usize,
    // the highest key at which a path may end on a gap
    pub(crate) slack: u16,
    // the numbers are those of a plate and a direction whose paths of this length exist
    ghost size: { GoodSize width height },
    ghost few: { setting.gaps ≤ 8 },
    ghost known: { index < 4 },
    ghost long: { span width height (2 ^ index) ≡ steps + spare + 1 },
    ghost short: { steps + spare < 2048 },
    ghost few_steps: { steps < 1024 },
    ghost is_length: { setting.length ≡ steps + 1 },
    ghost few_slack: { slack ≤ 65535 },
}

impl Scan {
    ghost use Rattle.tracing.specs.Scans.{ScanOf};

    // The scan of the direction at this index, which has paths of the setting's length.
    pub(crate) fn new(width: usize, height: usize, setting: Setting, index: usize) -> Scan
        requires good_size { GoodSize width height }
        requires le_length { (1 ≤ setting.length) × (setting.length ≤ 1024) × (setting.gaps ≤ 8) × (index < 4) }
        requires long { setting.length ≤ span width height (2 ^ index) }
        ensures { ScanOf result width height setting index }
    {
        let longest = plate::span_of(width, height, index);
        Scan {
            width,
            height,
            setting,
            index,
            steps: setting.length - 1,
            spare: longest - setting.length,
            slack: plans::gap_end(setting.ends),
        }
    }
}
