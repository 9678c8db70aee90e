// LexicographicSelection: by each objective in turn keep those near the best, until one is left.
ghost use Rattle.std.specs.Prelude.{◌≡◌, map, ◌≤◌, take};
ghost use Rattle.std.specs.Float.Ieee.{le};
ghost use Rattle.base.specs.Lists.{keep};
ghost use Rattle.base.specs.Refusals.{gives};
ghost use Rattle.roster.specs.Roster.{of_ratings};
ghost use Rattle.matchmaker.specs.Quality.{match_of};
ghost use Rattle.objective.specs.Soft.{soft_value_of};
ghost use Rattle.selection.specs.Selection.{candidates_of, selected_of, stated, max_of, highest_of, placed, value_of, near_best, narrowed, lexicographic_rule};
ghost use Rattle.selection.specs.Steps.{shortlist_of, still_in_of};

use crate::Selected;
use base::Refusal;
use matchmaker::ProposedMatch;
use objective::soft::SoftObjective;

// A candidate that is still kept, with its place in the given list.
#[derive(Clone, Copy)]
pub struct Candidate {
    pub place: usize,
    pub proposed: ProposedMatch,
}

// The first `len` are still kept.
#[derive(Clone, Copy)]
pub struct Shortlist {
    pub candidates: [Candidate; 64],
    pub len: usize,
}

// The larger of the two; a NaN is passed over.
fn max(x: f64, y: f64) -> f64
    ensures { result ≡ max_of x y }
{
    if x < y {
        return y;
    }
    if x != x {
        return y;
    }
    x
}

// The objective's value for a match, without its weight.
fn value(objective: SoftObjective, proposed: ProposedMatch, ids: &[u64], ratings: &[f64]) -> f64
    ensures { result ≡ soft_value_of (of_ratings ids.now ratings.now) (match_of proposed) objective }
{
    let quality = proposed.rated_quality(ids, ratings);
    let latency = objective::soft::rated_latency(proposed, ids, ratings);
    objective.value_from(quality, latency)
}

// All of the first n candidates.
fn listed(candidates: [ProposedMatch; 64], n: usize) -> Shortlist
    requires { n ≤ 64 }
    ensures { (shortlist_of result ≡ placed 0 (map match_of (take n candidates))) × (result.len ≤ 64) }
{
    let first = Candidate {
        place: 0,
        proposed: candidates[0],
    };
    let mut kept = [first; 64];
    for i in 0..n {
        kept[i] = Candidate {
            place: i,
            proposed: candidates[i],
        };
    }
    Shortlist {
        candidates: kept,
        len: n,
    }
}

// The highest value of those still kept, and minus infinity where there is none.
fn highest(objective: SoftObjective, kept: &[Candidate], ids: &[u64], ratings: &[f64]) -> f64
    ensures { result ≡ highest_of (map (value_of (of_ratings ids.now ratings.now) objective) (map still_in_of kept.now)) }
{
    let mut best = -1.0 / 0.0;
    for candidate in kept {
        best = max(best, value(objective, candidate.proposed, ids, ratings));
    }
    best
}

// Those still kept whose value is at least the bound.
fn at_least(
    bound: f64,
    objective: SoftObjective,
    shortlist: Shortlist,
    ids: &[u64],
    ratings: &[f64],
) -> Shortlist
    requires { shortlist.len ≤ 64 }
    ensures { (shortlist_of result ≡ keep (λ k. le bound (value_of (of_ratings ids.now ratings.now) objective k)) (shortlist_of shortlist)) × (result.len ≤ 64) }
{
    let kept = shortlist.candidates;
    let mut out = kept;
    let mut k = 0;
    for i in 0..shortlist.len {
        if bound <= value(objective, kept[i].proposed, ids, ratings) {
            out[k] = kept[i];
            k += 1;
        }
    }
    Shortlist {
        candidates: out,
        len: k,
    }
}

// Those near the best by one objective.
fn near_best(
    objective: SoftObjective,
    shortlist: Shortlist,
    ids: &[u64],
    ratings: &[f64],
) -> Shortlist
    requires { shortlist.len ≤ 64 }
    ensures { (shortlist_of result ≡ near_best (of_ratings ids.now ratings.now) objective (shortlist_of shortlist)) × (result.len ≤ 64) }
{
    let kept = &shortlist.candidates[..shortlist.len];
    let bound = highest(objective, kept, ids, ratings) - 0.001;
    at_least(bound, objective, shortlist, ids, ratings)
}

// Those left by all objectives, one after another.
fn narrow(
    objectives: [SoftObjective; 8],
    count: usize,
    shortlist: Shortlist,
    ids: &[u64],
    ratings: &[f64],
) -> Shortlist
    requires { (count ≤ 8) × (shortlist.len ≤ 64) }
    ensures { (shortlist_of result ≡ narrowed (of_ratings ids.now ratings.now) (take count objectives) (shortlist_of shortlist)) × (result.len ≤ 64) }
{
    let mut kept = shortlist;
    for i in 0..count {
        kept = near_best(objectives[i], kept, ids, ratings);
        if kept.len == 1 {
            return kept;
        }
    }
    kept
}

// The places of those left.
fn places_of(shortlist: Shortlist) -> Selected
    requires { shortlist.len ≤ 64 }
    ensures { selected_of result ≡ stated (gives (map (λ k. k.place) (shortlist_of shortlist))) }
{
    let mut places = [0; 64];
    for i in 0..shortlist.len {
        places[i] = shortlist.candidates[i].place;
    }
    Selected {
        places,
        count: shortlist.len,
        answer: Ok(()),
    }
}

pub fn select(
    objectives: [SoftObjective; 8],
    count: usize,
    candidates: [ProposedMatch; 64],
    n: usize,
    ids: &[u64],
    ratings: &[f64],
) -> Selected
    ensures { selected_of result ≡ stated (lexicographic_rule (of_ratings ids.now ratings.now) objectives count (candidates_of candidates n)) }
{
    if let Err(refusal) = crate::check(candidates, n, count, ids, ratings) {
        return crate::refuse(refusal);
    }
    places_of(narrow(objectives, count, listed(candidates, n), ids, ratings))
}
