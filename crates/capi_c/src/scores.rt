// The exports of `capi::scores`: each is the function of its name there, and promises what that promises.
ghost use Rattle.std.specs.Prelude.{◌≡◌};
ghost use Rattle.queue.specs.Queue.{queue_of};
ghost use Rattle.roster.specs.Roster.{of_ratings, of_deviations};
ghost use Rattle.matchmaker.specs.Quality.{match_of, quality_rule};
ghost use Rattle.objective.specs.Score.{score_rule};
ghost use Rattle.objective.specs.Pareto.{scalarized, dominates_of, zeros, default_weights};
ghost use Rattle.capi.specs.Scores.{scored_numbers, soft_value_numbers, soft_score_numbers};

use capi::scores;
use capi::scores::{Scored, SoftObjectives};
use matchmaker::ProposedMatch;
use objective::pareto::{MatchObjectiveVector, ObjectiveWeights};
use objective::score::MatchObjective;
use queue::Queue;

#[unsafe(no_mangle)]
pub extern "C" fn yilgashe_match_quality(
    proposed: ProposedMatch,
    ids: &[u64],
    ratings: &[f64],
) -> Scored
    ensures { result ≡ scored_numbers (quality_rule (of_ratings ids.now ratings.now) (match_of proposed)) }
{
    scores::yilgashe_match_quality(proposed, ids, ratings)
}

#[unsafe(no_mangle)]
pub extern "C" fn yilgashe_match_score(
    objective: MatchObjective,
    proposed: ProposedMatch,
    queue: Queue,
    ids: &[u64],
    ratings: &[f64],
    deviations: &[f64],
    clock: u64,
) -> Scored
    ensures { result ≡ scored_numbers (score_rule objective (of_deviations ids.now ratings.now deviations.now) (queue_of queue) clock (match_of proposed)) }
{
    scores::yilgashe_match_score(objective, proposed, queue, ids, ratings, deviations, clock)
}

#[unsafe(no_mangle)]
pub extern "C" fn yilgashe_soft_value(
    kind: u8,
    weight: f64,
    proposed: ProposedMatch,
    ids: &[u64],
    ratings: &[f64],
) -> Scored
    ensures { result ≡ scored_numbers (soft_value_numbers (of_ratings ids.now ratings.now) (match_of proposed) kind weight) }
{
    scores::yilgashe_soft_value(kind, weight, proposed, ids, ratings)
}

#[unsafe(no_mangle)]
pub extern "C" fn yilgashe_soft_score(
    objectives: SoftObjectives,
    proposed: ProposedMatch,
    ids: &[u64],
    ratings: &[f64],
) -> Scored
    ensures { result ≡ scored_numbers (soft_score_numbers (of_ratings ids.now ratings.now) (match_of proposed) objectives) }
{
    scores::yilgashe_soft_score(objectives, proposed, ids, ratings)
}

#[unsafe(no_mangle)]
pub extern "C" fn yilgashe_vector_scalarize(
    vector: MatchObjectiveVector,
    weights: ObjectiveWeights,
) -> f64
    ensures { result ≡ scalarized weights vector }
{
    scores::yilgashe_vector_scalarize(vector, weights)
}

#[unsafe(no_mangle)]
pub extern "C" fn yilgashe_vector_dominates(
    vector: MatchObjectiveVector,
    other: MatchObjectiveVector,
) -> bool
    ensures { result ≡ dominates_of vector other }
{
    scores::yilgashe_vector_dominates(vector, other)
}

#[unsafe(no_mangle)]
pub extern "C" fn yilgashe_vector_default() -> MatchObjectiveVector
    ensures { result ≡ zeros }
{
    scores::yilgashe_vector_default()
}

#[unsafe(no_mangle)]
pub extern "C" fn yilgashe_weights_default() -> ObjectiveWeights
    ensures { result ≡ default_weights }
{
    scores::yilgashe_weights_default()
}
