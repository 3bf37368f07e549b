// The doors: the rank of a pixel, and a path from one that has room for it, where the plate has such a
// direction and the path buffer the indices; else nothing is written.
ghost use Rattle.std.specs.Prelude.{◌≡◌, ◌^◌};
ghost use Rattle.basics.specs.Cases.{EitherBy};
ghost use Rattle.headings.specs.Trails.{Trail};
ghost use Rattle.headings.specs.Doors.{stands_on, rank_of, inside, goes_on};

use crate::heading::Heading;
use crate::onward;

// Whether the plate has this direction and this pixel.
fn stands_on(width: usize, height: usize, index: usize, p: usize) -> bool
    ensures { result ≡ stands_on width height index p }
{
    if plate::bad_size(width, height) {
        return false;
    }
    if index >= plate::DIRECTIONS {
        return false;
    }
    p < width * height
}

// How many lines the pixel at p stands from where the direction's longest paths start; 0 where there is none.
// By hand: the definition `rank_of` (specs/Doors.antt) gives a number of whatever is asked.
pub fn rank_of(width: usize, height: usize, index: usize, p: usize) -> usize
    ensures { result ≡ rank_of width height index p }
{
    if !stands_on(width, height, index, p) {
        return 0;
    }
    Heading::new(width, height, index, true).rank_of(p)
}

// Whether a path buffer of this length has the indices of a path on, or back.
fn is_inside(backwards: bool, size: usize, start: usize, steps: usize) -> bool
    ensures { result ≡ inside backwards size start steps }
{
    if size > 65536 {
        return false;
    }
    if start >= size {
        return false;
    }
    if backwards {
        return steps <= start;
    }
    steps < size - start
}

// Writes a path of so many steps from the pixel at an index on, or back; true where it does. There is nothing to
// say beside that, and one reason alone why not.
pub fn follow_any(
    path: &mut [usize],
    width: usize,
    height: usize,
    index: usize,
    backwards: bool,
    start: usize,
    steps: usize,
) -> bool
    ensures value { result ≡ goes_on width height index backwards start steps path.old }
    ensures either { EitherBy result (Trail width height (2 ^ index) backwards path.old path.new start steps) (path.new ≡ path.old) }
{
    if !is_inside(backwards, path.len(), start, steps) {
        return false;
    }
    let place = path[start];
    if !stands_on(width, height, index, place) {
        return false;
    }
    let heading = Heading::new(width, height, index, backwards);
    if steps > heading.room_of(place) {
        return false;
    }
    onward::follow_any(path, heading, start, steps);
    true
}
