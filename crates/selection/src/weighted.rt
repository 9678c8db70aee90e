// WeightedObjectiveSelection: all candidates, by falling score, equal scores in the given order.
ghost use Rattle.std.specs.Prelude.{◌≡◌, map, ◌≤◌, take};
ghost use Rattle.roster.specs.Roster.{of_ratings};
ghost use Rattle.selection.specs.Selection.{candidates_of, selected_of, stated, skill_scores, weighted_rule};
ghost use Rattle.base.specs.Refusals.{gives};
ghost use Rattle.ranking.specs.Order.{order_of, ordered};

use crate::Selected;
use base::Refusal;
use matchmaker::ProposedMatch;
use objective::pareto::ObjectiveWeights;
use ranking::Order;

// The skill weight times the quality of each of the first n candidates.
fn skill_scores(
    weights: ObjectiveWeights,
    candidates: [ProposedMatch; 64],
    n: usize,
    ids: &[u64],
    ratings: &[f64],
) -> [f64; 64]
    requires { n ≤ 64 }
    ensures { take n result ≡ skill_scores (of_ratings ids.now ratings.now) weights (candidates_of candidates n) }
{
    let mut out = [0.0; 64];
    for i in 0..n {
        out[i] = weights.skill * candidates[i].rated_quality(ids, ratings);
    }
    out
}

// The places of an order, first to last.
fn places_of(order: Order) -> Selected
    requires { order_of order ≡ ordered (order_of order).ranked }
    ensures { selected_of result ≡ stated (gives (map (λ c. c.place) (order_of order).ranked)) }
{
    let mut places = [0; 64];
    for i in 0..64 {
        places[i] = order.ranked[i].place;
    }
    Selected {
        places,
        count: order.len,
        answer: Ok(()),
    }
}

pub fn select(
    weights: ObjectiveWeights,
    candidates: [ProposedMatch; 64],
    n: usize,
    ids: &[u64],
    ratings: &[f64],
) -> Selected
    ensures { selected_of result ≡ stated (weighted_rule (of_ratings ids.now ratings.now) weights (candidates_of candidates n)) }
{
    if let Err(refusal) = crate::check(candidates, n, 0, ids, ratings) {
        return crate::refuse(refusal);
    }
    let scores = skill_scores(weights, candidates, n, ids, ratings);
    if ranking::is_unrankable(scores, n) {
        return crate::refuse(Refusal::Unranked);
    }
    places_of(ranking::falling(scores, n))
}
