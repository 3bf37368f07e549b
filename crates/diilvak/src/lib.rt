// The library for C and Rust: numbers and slices only, each function thin over the proved one.
//
// include/diilvak.h has the declarations for C, with all that a caller has to know. The result of a
// call that can be refused is the refusal's number, 0 where it is done; the other values go to lent
// numbers.
#![tactic(auto)]

ghost use Rattle.std.specs.Prelude.{◌≡◌, length as size};
ghost use Rattle.plate.specs.Levels.{corrected_plate};
ghost use Rattle.plate.specs.Opening.{filtered};
ghost use Rattle.plate.specs.Refusals.{IfAccepted, setting_verdict, correction_verdict, filter_verdict, trace_verdict};
ghost use Rattle.plate.specs.Answers.{answered, walked};
ghost use Rattle.plate.specs.Telling.{number_of, place_of, lent_after, value_after};
ghost use Rattle.theory.specs.Trace.{Shows};
ghost use Rattle.theory.specs.Between.{Bounds};
ghost use Rattle.between.specs.Refusals.{between_verdict};
ghost use Rattle.diilvak.specs.Numbers.{setting_of, FreeAfter, ShownAfter, has_moved, place_after, work_length};
ghost use Rattle.diilvak.specs.Version.{version};

mod findings;
mod taking;
mod telling;

use crate::taking::setting_of;
use crate::telling::{number_of, tell, tell_trace};
use plate::{Setting, Walker};

// This version, 0.6.0, as one number: major * 10000 + minor * 100 + patch.
const VERSION: usize = 600;

// The version that a program runs with, for callers to hold to that of their header.
#[unsafe(no_mangle)]
pub extern "C" fn diilvak_version() -> usize
    ensures { result ≡ version }
{
    VERSION
}

// 0, or the refusal of the setting: 2 to 5, 18.
#[unsafe(no_mangle)]
pub extern "C" fn diilvak_check_setting(
    length: usize,
    gaps: usize,
    directions: usize,
    mode: usize,
    ends: usize,
) -> usize
    ensures { result ≡ number_of (setting_verdict (setting_of length gaps directions mode ends)) }
{
    number_of(Setting::new(length, gaps, directions, mode, ends))
}

// Each reading plus its signed correction; `place` gets the refusal's place, 0 where there is none.
#[unsafe(no_mangle)]
pub extern "C" fn diilvak_correct(
    width: usize,
    height: usize,
    readings: &[u16],
    words: &[u16],
    res: &mut [i16],
    place: &mut usize,
) -> usize
    ensures value { result ≡ number_of (correction_verdict width height readings.now words.now (size res.old)) }
    ensures res_after { res.new ≡ lent_after (correction_verdict width height readings.now words.now (size res.old)) (corrected_plate readings.now words.now) res.old }
    ensures place_after { place.new ≡ place_of (correction_verdict width height readings.now words.now (size res.old)) }
{
    let answer = correction::correct(width, height, readings, words, res);
    tell(answer, place)
}

// 1 and the place that the numbered step leads to, or 0 where it leaves.
#[unsafe(no_mangle)]
pub extern "C" fn diilvak_step(
    width: usize,
    height: usize,
    direction: usize,
    place: usize,
    number: usize,
    to: &mut usize,
) -> usize
    ensures value { result ≡ has_moved (walked (record { width = width; height = height; direction = direction; place = place }) number) }
    ensures to_after { to.new ≡ place_after (walked (record { width = width; height = height; direction = direction; place = place }) number) to.old }
{
    let walker = Walker {
        width,
        height,
        direction,
        place,
    };
    match walker.step(number) {
        Some(moved) => {
            *to = moved.place;
            1
        }
        None => 0,
    }
}

// How many numbers the work buffer of a filter or a trace has at least; 0 for a size or a gap count
// that is refused.
#[unsafe(no_mangle)]
pub extern "C" fn diilvak_work_length(width: usize, height: usize, gaps: usize) -> usize
    ensures { result ≡ work_length width height gaps }
{
    if plate::bad_size(width, height) {
        return 0;
    }
    if gaps > Setting::MAX_GAPS {
        return 0;
    }
    4 * (gaps + 1) * (width * height)
}

// The opened (mode 0) or closed (mode 1) plate.
#[unsafe(no_mangle)]
pub extern "C" fn diilvak_filter(
    width: usize,
    height: usize,
    plate: &[i16],
    length: usize,
    gaps: usize,
    directions: usize,
    mode: usize,
    ends: usize,
    res: &mut [i16],
    work: &mut [u16],
) -> usize
    ensures value { result ≡ number_of (filter_verdict width height (setting_of length gaps directions mode ends) (size plate.now) (size res.old) (size work.old)) }
    ensures res_after { res.new ≡ lent_after (filter_verdict width height (setting_of length gaps directions mode ends) (size plate.now) (size res.old) (size work.old)) (filtered (setting_of length gaps directions mode ends) width height plate.now) res.old }
    ensures free_after { FreeAfter (filter_verdict width height (setting_of length gaps directions mode ends) (size plate.now) (size res.old) (size work.old)) work.old work.new }
{
    let setting = setting_of(length, gaps, directions, mode, ends);
    let answer = engine::filter(width, height, plate, setting, res, work);
    number_of(answer)
}

// The filtered lowest plate in `low` and the filtered highest in `high`, between which every plate between
// the two filters; `place` gets the refusal's place, 0 where there is none.
#[unsafe(no_mangle)]
pub extern "C" fn diilvak_filter_between(
    width: usize,
    height: usize,
    lowest: &[i16],
    highest: &[i16],
    length: usize,
    gaps: usize,
    directions: usize,
    mode: usize,
    ends: usize,
    low: &mut [i16],
    high: &mut [i16],
    work: &mut [u16],
    place: &mut usize,
) -> usize
    ensures value { result ≡ number_of (between_verdict width height (setting_of length gaps directions mode ends) lowest.now highest.now (size low.old) (size high.old) (size work.old)) }
    ensures low_after { low.new ≡ lent_after (between_verdict width height (setting_of length gaps directions mode ends) lowest.now highest.now (size low.old) (size high.old) (size work.old)) (filtered (setting_of length gaps directions mode ends) width height lowest.now) low.old }
    ensures high_after { high.new ≡ lent_after (between_verdict width height (setting_of length gaps directions mode ends) lowest.now highest.now (size low.old) (size high.old) (size work.old)) (filtered (setting_of length gaps directions mode ends) width height highest.now) high.old }
    ensures free_after { FreeAfter (between_verdict width height (setting_of length gaps directions mode ends) lowest.now highest.now (size low.old) (size high.old) (size work.old)) work.old work.new }
    ensures place_after { place.new ≡ place_of (between_verdict width height (setting_of length gaps directions mode ends) lowest.now highest.now (size low.old) (size high.old) (size work.old)) }
    ensures if_accepted { IfAccepted (between_verdict width height (setting_of length gaps directions mode ends) lowest.now highest.now (size low.old) (size high.old) (size work.old)) (Bounds (setting_of length gaps directions mode ends) width height lowest.now highest.now low.new high.new) }
{
    let setting = setting_of(length, gaps, directions, mode, ends);
    let answer = between::filter_between(width, height, lowest, highest, setting, low, high, work);
    tell(answer, place)
}

// The path of best level through the pixel at `at`: its places in `path`, its direction's bit and the
// pixel's filtered level in the lent numbers.
#[unsafe(no_mangle)]
pub extern "C" fn diilvak_trace(
    width: usize,
    height: usize,
    plate: &[i16],
    length: usize,
    gaps: usize,
    directions: usize,
    mode: usize,
    ends: usize,
    at: usize,
    path: &mut [usize],
    work: &mut [u16],
    direction: &mut usize,
    level: &mut i16,
) -> usize
    ensures value { result ≡ number_of (trace_verdict width height (setting_of length gaps directions mode ends) plate.now at (size path.old) (size work.old)) }
    ensures level_after { level.new ≡ value_after (trace_verdict width height (setting_of length gaps directions mode ends) plate.now at (size path.old) (size work.old)) level.old }
    ensures shown_after { ShownAfter (trace_verdict width height (setting_of length gaps directions mode ends) plate.now at (size path.old) (size work.old)) (Shows (setting_of length gaps directions mode ends) width height plate.now at) direction.old direction.new path.old path.new work.old work.new }
{
    let setting = setting_of(length, gaps, directions, mode, ends);
    let traced = tracing::trace(width, height, plate, setting, at, path, work);
    tell_trace(traced, direction, level)
}
