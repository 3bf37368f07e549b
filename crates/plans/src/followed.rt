// A plan that a sweep can follow, and the room that its parts take. That it is well formed is asked once,
// where the value is made; so what is given one need not ask again, and none of its sizes wraps.
ghost use Rattle.std.specs.Prelude.{◌≡◌, true, false, ◌≤◌, ◌<◌, MatchOption};
ghost use Rattle.plans.specs.Plans.{rows_in, row_lo, row_hi, row_at, row_of, keys_size, state_size, block_of};
ghost use Rattle.plans.specs.Forms.{well_formed};

use crate::form::is_well_formed;
use crate::plan::{MARGIN, Plan, Row, row_of};

#[derive(Clone, Copy)]
pub struct Followed {
    pub plan: Plan,
    pub ghost formed: { well_formed plan ≡ true },
}

impl Followed {
    // The same plan; `None` where no sweep can follow it.
    pub fn new(plan: Plan) -> Option<Followed>
        ensures { MatchOption result (well_formed plan ≡ false) (λ f. f.plan ≡ plan) }
    {
        if is_well_formed(plan) {
            Some(Followed { plan })
        } else {
            None
        }
    }

    // Row m of state e: an empty one where the numbers are no row's, else the row itself.
    pub fn row(self, e: usize, m: usize) -> Row
        ensures of { result ≡ row_of self.plan e m }
        ensures inside { e < 65536 → m < rows_in self.plan e → (result.lo ≡ row_lo self.plan e m) × (result.hi ≡ row_hi self.plan e m) × (result.at ≡ row_at self.plan e m) }
    {
        row_of(self.plan, e, m)
    }

    // How many keys there are: one for each pixel of the frame.
    pub fn keys_size(self) -> usize
        ensures { (result ≡ keys_size self.plan) × (result ≤ 65536) }
    {
        self.plan.lines * self.plan.across
    }

    // How many numbers a state has.
    pub fn state_size(self) -> usize
        ensures { (result ≡ state_size self.plan) × (result ≤ 9437184) }
    {
        self.plan.rows * (self.plan.planes * self.plan.across)
    }

    // How many numbers a row takes where it is held, in all planes and with its margin.
    pub fn block_size(self) -> usize
        ensures { (result ≡ block_of self.plan) × (1 ≤ result) × (result ≤ 9360) }
    {
        self.plan.planes * (self.plan.across + MARGIN)
    }
}
