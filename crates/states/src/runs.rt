// Runs of numbers on their way into the held rows and out of them, one loop each, with no branch on the
// numbers, so that they are compiled to vector instructions. What is held has its highest bit turned (the
// crate eights).
ghost use Rattle.std.specs.Prelude.{◌≡◌, ℕ, ◌+◌, ◌≤◌, ◌<◌, min, max, length, get_or};
ghost use Rattle.eights.specs.Turned.{turned};
ghost use Rattle.states.specs.Runs.{Between};

use eights::turn;

// to[i] is what f makes of from[i].
fn map_run<F: Fn(u16) -> u16>(to: &mut [u16], from: &[u16], f: F)
    requires as_long { length to.old ≡ length from.now }
    requires callable { F.IsAlwaysCallable f }
    ensures { (i : ℕ) → i < length from.now → F.post f (get_or from.now i 0) (get_or to.new i 0) }
{
    for (i, t) in to.iter_mut().enumerate() {
        *t = f(from[i]);
    }
}

// to[i] is from[i] turned: numbers come to be held, and held ones to be stored.
pub(crate) fn turn_run(to: &mut [u16], from: &[u16])
    requires { length to.old ≡ length from.now }
    ensures held { (i : ℕ) → i < length from.now → turned (get_or to.new i 0) ≡ get_or from.now i 0 }
    ensures stored { (i : ℕ) → i < length from.now → get_or to.new i 0 ≡ turned (get_or from.now i 0) }
{
    map_run(to, from, turn);
}

// to[i] is the greater of from[i] and v, turned.
pub(crate) fn raise_run(to: &mut [u16], from: &[u16], v: u16)
    requires { length to.old ≡ length from.now }
    ensures { (i : ℕ) → i < length from.now → turned (get_or to.new i 0) ≡ max (get_or from.now i 0) v }
{
    map_run(to, from, |a| turn(a.max(v)));
}

// to[at + c] = v for c below n. By hand it takes the place and not a slice: its callers speak of places of the
// whole list, and what it leaves of them is proved here once for all four.
pub(crate) fn fill_run(to: &mut [u16], at: usize, n: usize, v: u16)
    requires { at + n ≤ length to.old }
    ensures { Between (λ (k : ℕ). v) to.old to.new at (at + n) }
{
    to[at..at + n].fill(v);
}

// best[i] rises to the lower of held[i], turned back, and work[i]. It is not inlined: in the loop over planes,
// where one of the three goes down, the compiler would make no vectors of it.
#[inline(never)]
pub(crate) fn fold_run(best: &mut [u16], held: &[u16], work: &[u16])
    requires { (length held.now ≡ length best.old) × (length work.now ≡ length best.old) }
    ensures { (i : ℕ) → i < length best.old → get_or best.new i 0 ≡ max (get_or best.old i 0) (min (turned (get_or held.now i 0)) (get_or work.now i 0)) }
{
    for (i, b) in best.iter_mut().enumerate() {
        *b = (*b).max(turn(held[i]).min(work[i]));
    }
}
