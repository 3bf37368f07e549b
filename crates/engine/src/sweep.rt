// All chosen directions, one after the other.
ghost use Rattle.std.specs.Prelude.{◌≡◌, true, ◌*◌, ◌^◌, ◌<◌, length};
ghost use Rattle.plate.specs.Opening.{filtered};
ghost use Rattle.directions.specs.Gathering.{Raised};
ghost use Rattle.engine.specs.Finishing.{Accepted, Complete, Gathered, best_if_chosen, best_of_all};

use crate::finish::{blank, finish};
use plate::Setting;

// Whether every level has reached the pixel's own: then no other direction can add to it.
fn is_complete(res: &[i16], plate: &[i16], mode: usize) -> bool
    requires { length res.now ≡ length plate.now }
    ensures { result ≡ true → Complete mode plate.now res.now }
{
    for (x, own) in plate.iter().enumerate() {
        if plate::key_of(res[x]) < frames::key_by(mode, *own) {
            return false;
        }
    }
    true
}

// A plate that is filtered: its size, its levels and the setting. That a call has passed its checks (`Accepted`)
// stays with each method, by hand: it speaks of the lent buffers too, which are not held here.
#[derive(Clone, Copy)]
pub(crate) struct Sieve<'a> {
    pub width: usize,
    pub height: usize,
    pub plate: &'a [i16],
    pub setting: Setting,
}

impl<'a> Sieve<'a> {
    // The direction at this index, if it is chosen. Where its paths are too short nothing is raised: there is
    // no path.
    fn open_if_chosen(&self, res: &mut [i16], work: &mut [u16], index: usize)
        requires accepted { Accepted self.now.width self.now.height self.now.setting (length self.now.plate.now) (length res.old) (length work.old) }
        requires index_bound { index < 4 }
        ensures { Raised (best_if_chosen self.now.width self.now.height self.now.setting self.now.plate.now (2 ^ index)) res.old res.new 0 (self.now.width * self.now.height) }
    {
        if !self.setting.chooses(index) {
            return;
        }
        directions::open_direction(
            res,
            work,
            self.plate,
            self.width,
            self.height,
            self.setting,
            index,
        );
    }

    fn open_chosen(&self, res: &mut [i16], work: &mut [u16])
        requires { Accepted self.now.width self.now.height self.now.setting (length self.now.plate.now) (length res.old) (length work.old) }
        ensures { Gathered self.now.setting.mode self.now.plate.now (best_of_all self.now.width self.now.height self.now.setting self.now.plate.now) res.old res.new (self.now.width * self.now.height) }
    {
        for index in 0..plate::DIRECTIONS {
            if is_complete(res, self.plate, self.setting.mode) {
                return;
            }
            self.open_if_chosen(res, work, index);
        }
    }

    // The filtered plate, once every check has passed.
    pub(crate) fn sweep(&self, res: &mut [i16], work: &mut [u16])
        requires { Accepted self.now.width self.now.height self.now.setting (length self.now.plate.now) (length res.old) (length work.old) }
        ensures { res.new ≡ filtered self.now.setting self.now.width self.now.height self.now.plate.now }
    {
        blank(res);
        self.open_chosen(res, work);
        finish(res, self.plate, self.setting.mode);
    }
}
