// Choosing among candidate matches (selection.rs). Each selection answers with the places of the chosen in the given list.
#![tactic(auto)]

ghost use Rattle.std.specs.Prelude.{◌≡◌, cond, [], ◌∷◌, map, ◌≤◌, take};
ghost use Rattle.base.specs.Refusals.{refused, gives, refusal_number, outcome_of};
ghost use Rattle.base.specs.Lists.{any};
ghost use Rattle.roster.specs.Roster.{of_ratings, ratings_check};
ghost use Rattle.matchmaker.specs.Quality.{match_of, overfull};
ghost use Rattle.objective.specs.Soft.{soft_score_of};
ghost use Rattle.selection.specs.Selection.{candidates_of, too_much, selected_of, stated};

use base::Refusal;
use matchmaker::ProposedMatch;
use objective::soft::SoftObjective;

// GreedySelection: the single best.
pub mod greedy;

// ThresholdSelection: the first that is good enough.
pub mod threshold;

// LexicographicSelection: by one objective after another.
pub mod lexicographic;

// WeightedObjectiveSelection: all, the best first.
pub mod weighted;

// The first `count` places, or the refusal and none. What stands behind them is free.
#[derive(Clone, Copy)]
pub struct Selected {
    pub places: [usize; 64],
    pub count: usize,
    pub answer: Result<(), Refusal>,
}

// Nobody chosen, for this refusal.
pub(crate) fn refuse(refusal: Refusal) -> Selected
    ensures { selected_of result ≡ stated (refused (refusal_number refusal)) }
{
    Selected {
        answer: Err(refusal),
        ..nobody()
    }
}

// Nobody chosen.
pub(crate) fn nobody() -> Selected
    ensures { selected_of result ≡ stated (gives []) }
{
    Selected {
        places: [0; 64],
        count: 0,
        answer: Ok(()),
    }
}

// One chosen.
pub(crate) fn just(place: usize) -> Selected
    ensures { selected_of result ≡ stated (gives (place ∷ [])) }
{
    Selected {
        places: [place; 64],
        count: 1,
        answer: Ok(()),
    }
}

// Is a team over 8 among the candidates?
fn any_overfull(candidates: &[ProposedMatch]) -> bool
    ensures { result ≡ any overfull (map match_of candidates.now) }
{
    candidates.iter().any(|candidate| candidate.is_overfull())
}

// Refusals 1 and 2 of candidates, objectives and columns.
pub(crate) fn check(
    candidates: [ProposedMatch; 64],
    n: usize,
    objectives: usize,
    ids: &[u64],
    ratings: &[f64],
) -> Result<(), Refusal>
    ensures { outcome_of result ≡ cond (too_much (candidates_of candidates n) objectives) (refused 1) (ratings_check (of_ratings ids.now ratings.now)) }
{
    if 64 < n || any_overfull(&candidates[..n]) || 8 < objectives {
        return Err(Refusal::OverLimit);
    }
    roster::check_ratings(ids, ratings)
}

// The scores of the first n candidates, in their order.
pub(crate) fn scores(
    objectives: [SoftObjective; 8],
    count: usize,
    candidates: [ProposedMatch; 64],
    n: usize,
    ids: &[u64],
    ratings: &[f64],
) -> [f64; 64]
    requires { n ≤ 64 }
    ensures { take n result ≡ map (λ m. soft_score_of (of_ratings ids.now ratings.now) m (take count objectives)) (map match_of (take n candidates)) }
{
    let mut out = [0.0; 64];
    for i in 0..n {
        out[i] = objective::soft::rated_soft_score(objectives, count, candidates[i], ids, ratings);
    }
    out
}
