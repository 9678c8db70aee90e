// What is known of the constraints while a choice fills, so that they are not held against every choice anew.
ghost use Rattle.std.specs.Prelude.{◌≡◌, false, not, ◌&&◌, ◌||◌, eqb, get_or, ◌+◌, ◌<◌, ◌^◌};
ghost use Rattle.choice.specs.Reading.{in_limits};
ghost use Rattle.choice.specs.Tallies.{no_tally, tally_with, fits};

use constraint::sizes::TeamSizeConstraint;
use seating::TeamComposition;

// Is everyone fine so far; how many count for each role requirement, eight bits each; and the places of those who are seated, of those who
// must be, and of those who may not join B.
#[derive(Clone, Copy)]
pub struct Tally {
    pub fine: bool,
    pub counts: u64,
    pub present: u64,
    pub wanted: u64,
    pub barred: u64,
}

// How many role requirements there are, and their limits, eight bits each.
#[derive(Clone, Copy)]
pub struct Bounds {
    pub asked: usize,
    pub least: u64,
    pub most: u64,
}

// Nobody's tally: are the table's sizes those that are asked for, if they are?
pub(crate) fn begun(asked: bool, stated: TeamSizeConstraint, sizes: TeamComposition) -> Tally
    ensures { result ≡ no_tally (not asked || (eqb sizes.a stated.a && eqb sizes.b stated.b)) }
{
    let a = sizes.a == stated.a;
    let b = sizes.b == stated.b;
    Tally {
        fine: !asked | (a & b),
        counts: 0,
        present: 0,
        wanted: 0,
        barred: 0,
    }
}

// The tally with the player at a place, who joins A or B.
pub(crate) fn tally_with(
    tally: Tally,
    first: bool,
    admits: &[bool; 64],
    counts: &[u64; 64],
    same: &[u64; 64],
    expected: &[u64; 64],
    foes: &[u64; 64],
    at: usize,
) -> Tally
    requires { (at < 64) × (tally.counts + get_or counts.now at 0 < 2 ^ 64) }
    ensures { result ≡ tally_with tally first (get_or admits.now at false) (get_or counts.now at 0) (get_or same.now at 0) (get_or expected.now at 0) (get_or foes.now at 0) }
{
    let free = tally.barred & same[at] == 0;
    let fine = tally.fine & (admits[at] & (first | free));
    let total = tally.counts + counts[at];
    let present = tally.present | same[at];
    let wanted = tally.wanted | expected[at];
    if first {
        return Tally {
            fine,
            counts: total,
            present,
            wanted,
            barred: tally.barred | foes[at],
        };
    }
    Tally {
        fine,
        counts: total,
        present,
        wanted,
        barred: tally.barred,
    }
}

// Are the counts within their limits?
fn are_within(asked: usize, counts: u64, least: u64, most: u64) -> bool
    ensures { result ≡ in_limits asked counts least most }
{
    let mut c = counts;
    let mut l = least;
    let mut m = most;
    for _ in 0..asked {
        let count = c % 256;
        if count < l % 256 {
            return false;
        }
        if m % 256 < count {
            return false;
        }
        c /= 256;
        l /= 256;
        m /= 256;
    }
    true
}

// Does the choice pass?
pub(crate) fn passes(bounds: Bounds, tally: Tally) -> bool
    ensures { result ≡ fits bounds tally }
{
    if !tally.fine {
        return false;
    }
    if tally.wanted & tally.present != tally.wanted {
        return false;
    }
    are_within(bounds.asked, tally.counts, bounds.least, bounds.most)
}
