// The filter: opening and closing of a plate by paths with gaps (document 01, section 3).
//
// The method is the published decomposition, taken on grey levels: the best path through a pixel is the
// best walk that ends there joined with the best walk that goes on from there, over all ways to share
// the steps and the gaps. The crate directions does this for one direction; here the directions follow
// each other (sweep.rt), until there is none left or every pixel has reached its own level, and in the
// end each pixel is held below its own level (finish.rt).
//
// A call takes time by the sizes and the setting, and about 182 KB of stack, most of it the best numbers of
// the pixels. There is no recursion.
#![tactic(auto)]

ghost use Rattle.std.specs.Prelude.{◌≡◌, length};
ghost use Rattle.plate.specs.Opening.{filtered};
ghost use Rattle.plate.specs.Refusals.{filter_verdict};
ghost use Rattle.plate.specs.Answers.{answered, result_after, WorkAfter};

mod finish;
mod sweep;

use crate::sweep::Sieve;
use plate::{Fills, Lent, Refusal, Setting};

// Fills result with the filtered plate, or refuses (1 to 8, 18) before the first store: then both lent
// buffers are as they were. The work buffer has at least 4 * (gaps + 1) * width * height numbers, and
// what is left in it is free.
pub fn filter(
    width: usize,
    height: usize,
    plate: &[i16],
    setting: Setting,
    res: &mut [i16],
    work: &mut [u16],
) -> Result<(), Refusal>
    ensures result_value { answered result ≡ filter_verdict width height setting (length plate.now) (length res.old) (length work.old) }
    ensures res_after { res.new ≡ result_after result (filtered setting width height plate.now) res.old }
    ensures work_after { WorkAfter result work.old work.new }
{
    let lent = Lent {
        input: plate.len(),
        fills: Fills::Result,
        filled: res.len(),
        work: work.len(),
    };
    plate::judge(width, height, setting, lent)?;
    let sieve = Sieve {
        width,
        height,
        plate,
        setting,
    };
    sieve.sweep(res, work);
    Ok(())
}
