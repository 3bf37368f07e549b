// The directions in which a trace can look: chosen, and with paths that are long enough.
ghost use Rattle.std.specs.Prelude.{◌≡◌, ◌≤◌};
ghost use Rattle.headings.specs.Usable.{bit_at, usable, FirstUsable};

use plate::Setting;

// The bit of the direction at this index of the step table, past it of the last one.
pub fn bit_of(index: usize) -> usize
    ensures { (result ≡ bit_at index) × (1 ≤ result) }
{
    1 << index.min(3)
}

// Whether the direction at this index is chosen and has paths of the setting's length.
#[tactic(auto, unfolding(crate::specs::Usable::usable))]
pub fn is_usable(width: usize, height: usize, setting: Setting, index: usize) -> bool
    ensures { result ≡ usable width height setting index }
{
    setting.chooses(index) && setting.length <= plate::span_of(width, height, index)
}

// The index of the first usable direction; none where no direction is usable.
pub fn first_usable(width: usize, height: usize, setting: Setting) -> Option<usize>
    ensures { FirstUsable width height setting result }
{
    (0..plate::DIRECTIONS).find(|index| is_usable(width, height, setting, *index))
}
