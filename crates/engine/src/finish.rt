// The first and the last pass over the result.
ghost use Rattle.std.specs.Prelude.{◌≡◌, min, length};
ghost use Rattle.plate.specs.Levels.{key};
ghost use Rattle.frames.specs.Keys.{key_by, level_by};
ghost use Rattle.engine.specs.Finishing.{Blank, Finished};

// Every level the lowest: no path is found yet.
pub(crate) fn blank(res: &mut [i16])
    ensures { Blank res.old res.new }
{
    res.fill(i16::MIN);
}

// The filtered level of a pixel, from its own and the best of the paths through it: a gap is not raised.
fn finished(mode: usize, own: i16, best: i16) -> i16
    ensures { result ≡ level_by mode (min (key_by mode own) (key best)) }
{
    frames::level_by(mode, frames::key_by(mode, own).min(plate::key_of(best)))
}

pub(crate) fn finish(res: &mut [i16], plate: &[i16], mode: usize)
    requires { length res.old ≡ length plate.now }
    ensures { Finished mode plate.now res.old res.new }
{
    for (x, own) in plate.iter().enumerate() {
        res[x] = finished(mode, *own, res[x]);
    }
}
