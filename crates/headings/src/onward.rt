// A path on one side of the picked pixel at the lowest level, where every path counts: each next pixel is a
// neighbour that has room for the steps that are left.
ghost use Rattle.std.specs.Prelude.{◌*◌, ◌<◌, ◌≤◌, length, get_or};
ghost use Rattle.headings.specs.Headings.{bit_of, room_at};
ghost use Rattle.headings.specs.Choosing.{Chosen};
ghost use Rattle.headings.specs.Trails.{Within, Trail};

use crate::heading::Heading;
use crate::trail::index_after;

// The first neighbour of p from which m more steps can lead on; none where none has room.
fn choose(heading: Heading, p: usize, m: usize) -> Option<usize>
    requires { p < heading.width * heading.height }
    ensures { Chosen heading p m result }
{
    for number in 0..3 {
        if let Some(q) = heading.neighbour(number, p) {
            if heading.room_of(q) >= m {
                return Some(q);
            }
        }
    }
    None
}

// Writes a path of so many steps from the pixel at an index on, or back.
pub(crate) fn follow_any(path: &mut [usize], heading: Heading, start: usize, steps: usize)
    requires path_len_bound { (length path.old ≤ 65536) × (start < length path.old) }
    requires within { Within heading.backwards (length path.old) start steps }
    requires start_bound { (get_or path.old start 0 < heading.width * heading.height) × (steps ≤ room_at heading (get_or path.old start 0)) }
    ensures { Trail heading.width heading.height (bit_of heading) heading.backwards path.old path.new start steps }
{
    let mut place = path[start];
    for n in 0..steps {
        let left = steps - n - 1;
        // a place with room for the steps that are left has a neighbour with room for all of them but one
        place = choose(heading, place, left).unwrap();
        let i = index_after(start, n + 1, heading.backwards);
        path[i] = place;
    }
}
