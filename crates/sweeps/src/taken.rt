// The doors of states, called where it is known that they are taken. By hand: `advance` stands in stacks too,
// but what is asked for that is a `requires`, which no public function has, so it cannot be lent.
ghost use Rattle.std.specs.Prelude.{◌≡◌, ◌⊎◌, ◌+◌, ◌-◌, ◌≤◌, ◌<◌, length};
ghost use Rattle.plans.specs.Plans.{rows_in, state_size, keys_size, half_with};
ghost use Rattle.states.specs.States.{Advanced, Joined, further_in};

use plans::Followed;
use states::Stretch;

// States from the one before at `from`, the last of them at `to`.
pub(crate) fn advance(
    work: &mut [u16],
    held: &mut [u16],
    followed: Followed,
    states: Stretch,
    from: usize,
    to: usize,
)
    requires first_lt_past { (states.first < states.past) × (states.past ≤ 65536) × (keys_size followed.plan ≤ from) × (keys_size followed.plan ≤ to) × (from + state_size followed.plan ≤ length work.old) × (to + state_size followed.plan ≤ length work.old) }
    requires fact { (from ≡ to) ⊎ ((from + state_size followed.plan ≤ to) ⊎ (to + state_size followed.plan ≤ from)) }
    requires states_in_bounds { (half_with followed.plan (further_in states) + half_with followed.plan (further_in states) ≤ length held.old) × (length held.old ≤ 40000) }
    ensures advanced { Advanced followed.plan states.first states.past work.old work.new from to }
    ensures held_len_unchanged { length held.new ≡ length held.old }
{
    states::advance(work, held, followed.plan, states, from, to);
}

// States from the one before at `from`, the last of which is joined with the state at `ends`.
pub(crate) fn advance_joined(
    best: &mut [u16],
    work: &[u16],
    held: &mut [u16],
    followed: Followed,
    states: Stretch,
    from: usize,
    ends: usize,
)
    requires first_lt_past { (states.first < states.past) × (states.past ≤ 65536) × (rows_in followed.plan (states.past - 1) ≡ followed.plan.rows) × (keys_size followed.plan ≤ length best.old) }
    requires plan_bound { (keys_size followed.plan ≤ from) × (from + state_size followed.plan ≤ length work.now) × (keys_size followed.plan ≤ ends) × (ends + state_size followed.plan ≤ length work.now) }
    requires states_in_bounds { (half_with followed.plan (further_in states) + half_with followed.plan (further_in states) ≤ length held.old) × (length held.old ≤ 40000) }
    ensures joined { Joined followed.plan states.first states.past work.now best.old best.new from ends }
    ensures held_len_unchanged { length held.new ≡ length held.old }
    ensures best_len_unchanged { length best.new ≡ length best.old }
{
    states::advance_joined(best, work, held, followed.plan, states, from, ends);
}
