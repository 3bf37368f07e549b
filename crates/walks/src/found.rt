// The best path through the picked pixel, by the notes of the walks that end there and of those that go on
// from it.
ghost use Rattle.std.specs.Prelude.{◌≡◌, ℕ, ◌+◌, ◌-◌, ◌*◌, ◌≤◌, ◌<◌, min, length, get_or};
ghost use Rattle.walks.specs.Searching.{term_at, RowSearched, Searched};

// A path through the picked pixel: the index of its direction, the key at which it counts, and how many
// of its steps and of its gaps lie before the pixel.
#[derive(Clone, Copy)]
pub struct Found {
    pub index: usize,
    pub key: u16,
    pub before: usize,
    pub gaps: usize,
}

// How many steps and gaps the paths of a direction have, and how many steps more its longest paths.
#[derive(Clone, Copy)]
pub struct Paths {
    pub steps: usize,
    pub gaps: usize,
    pub spare: usize,
}

// The paths with l steps before the pixel, for every way to share the gaps: i of them before it, by the notes
// `ends`, and the others after it, by `goes`.
fn search_row(
    ends: &[u16],
    goes: &[u16],
    gaps: usize,
    own: u16,
    index: usize,
    l: usize,
    found: Found,
) -> Found
    requires { (gaps ≤ 8) × (length ends.now ≡ gaps + 1) × (length goes.now ≡ gaps + 1) }
    ensures { RowSearched (λ (i : ℕ). min own (min (get_or ends.now i 0) (get_or goes.now (gaps - i) 0))) (gaps + 1) index l found result }
{
    let mut best = found;
    for i in 0..=gaps {
        let key = own.min(ends[i].min(goes[gaps - i]));
        if key > best.key {
            best = Found {
                index,
                key,
                before: l,
                gaps: i,
            };
        }
    }
    best
}

// All paths of a direction that can have the pixel, whose rank this is, by the notes of the walks that end there
// and of those that go on from it.
pub(crate) fn search(
    ends: &[u16],
    goes: &[u16],
    paths: Paths,
    own: u16,
    index: usize,
    rank: usize,
    found: Found,
) -> Found
    requires steps_bound { (paths.steps < 65536) × (paths.gaps ≤ 8) × (rank ≤ paths.steps + paths.spare) × (paths.spare < 65536) }
    requires gaps_in_bounds { ((paths.steps + 1) * (paths.gaps + 1) ≤ length ends.now) × ((paths.steps + 1) * (paths.gaps + 1) ≤ length goes.now) }
    ensures { Searched (term_at ends.now goes.now paths own) paths.steps paths.gaps paths.spare rank index (paths.steps + 1) found result }
{
    let planes = paths.gaps + 1;
    let past = rank.min(paths.steps) + 1;
    let mut best = found;
    for l in rank.saturating_sub(paths.spare)..past {
        let end = l * planes;
        let go = (paths.steps - l) * planes;
        best = search_row(
            &ends[end..end + planes],
            &goes[go..go + planes],
            paths.gaps,
            own,
            index,
            l,
            best,
        );
    }
    best
}
