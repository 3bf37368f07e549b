// What the ends of a path may be.
ghost use Rattle.std.specs.Prelude.{◌≡◌};
ghost use Rattle.theory.specs.BestWalks.{gap_end};

// The highest of all keys.
pub const MAX_KEY: u16 = u16::MAX;

// The highest key at which a path may end on a gap: where `ends` is 1 they must be crack, and it is 0, at
// which there is no gap; else it is the highest of all. By number, as C hands `ends` in and `gap_end` of
// theory takes it.
#[tactic(auto, unfolding(theory::specs::BestWalks::gap_end))]
pub fn gap_end(ends: usize) -> u16
    ensures { result ≡ gap_end ends }
{
    if ends == 1 { 0 } else { MAX_KEY }
}
