// The door of states, called where it is known that it is taken. By hand here and in sweeps: what is asked
// for that is a `requires`, which no public function has, so no crate below could lend it to both.
ghost use Rattle.std.specs.Prelude.{◌≡◌, ◌⊎◌, ◌+◌, ◌≤◌, ◌<◌, length};
ghost use Rattle.plans.specs.Plans.{state_size, keys_size, half_with};
ghost use Rattle.states.specs.States.{Advanced, further_in};

use plans::Followed;
use states::Stretch;

// States from the one before at `from`, the last of them at `to`.
pub(crate) fn advance(
    work: &mut [u16],
    held: &mut [u16],
    followed: Followed,
    states: Stretch,
    from: usize,
    to: usize,
)
    requires first_lt_past { (states.first < states.past) × (states.past ≤ 65536) × (keys_size followed.plan ≤ from) × (keys_size followed.plan ≤ to) × (from + state_size followed.plan ≤ length work.old) × (to + state_size followed.plan ≤ length work.old) }
    requires fact { (from ≡ to) ⊎ ((from + state_size followed.plan ≤ to) ⊎ (to + state_size followed.plan ≤ from)) }
    requires states_in_bounds { (half_with followed.plan (further_in states) + half_with followed.plan (further_in states) ≤ length held.old) × (length held.old ≤ 40000) }
    ensures advanced { Advanced followed.plan states.first states.past work.old work.new from to }
    ensures held_len_unchanged { length held.new ≡ length held.old }
{
    states::advance(work, held, followed.plan, states, from, to);
}
