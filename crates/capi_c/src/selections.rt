// The exports of `capi::selections`: each is the function of its name there, and promises what that promises.
ghost use Rattle.roster.specs.Roster.{of_ratings};
ghost use Rattle.capi.specs.Selections.{SelectNumbers, greedy_numbers, threshold_numbers, lexicographic_numbers, weighted_numbers};

use capi::scores::SoftObjectives;
use capi::selections;
use capi::selections::{Candidates, Selected};
use objective::pareto::ObjectiveWeights;

#[unsafe(no_mangle)]
pub extern "C" fn yilgashe_select_greedy(
    objectives: SoftObjectives,
    candidates: Candidates,
    ids: &[u64],
    ratings: &[f64],
) -> Selected
    ensures { SelectNumbers (greedy_numbers (of_ratings ids.now ratings.now) objectives candidates) result }
{
    selections::yilgashe_select_greedy(objectives, candidates, ids, ratings)
}

#[unsafe(no_mangle)]
pub extern "C" fn yilgashe_select_threshold(
    minimum: f64,
    objectives: SoftObjectives,
    candidates: Candidates,
    ids: &[u64],
    ratings: &[f64],
) -> Selected
    ensures { SelectNumbers (threshold_numbers (of_ratings ids.now ratings.now) minimum objectives candidates) result }
{
    selections::yilgashe_select_threshold(minimum, objectives, candidates, ids, ratings)
}

#[unsafe(no_mangle)]
pub extern "C" fn yilgashe_select_lexicographic(
    objectives: SoftObjectives,
    candidates: Candidates,
    ids: &[u64],
    ratings: &[f64],
) -> Selected
    ensures { SelectNumbers (lexicographic_numbers (of_ratings ids.now ratings.now) objectives candidates) result }
{
    selections::yilgashe_select_lexicographic(objectives, candidates, ids, ratings)
}

#[unsafe(no_mangle)]
pub extern "C" fn yilgashe_select_weighted(
    weights: ObjectiveWeights,
    candidates: Candidates,
    ids: &[u64],
    ratings: &[f64],
) -> Selected
    ensures { SelectNumbers (weighted_numbers (of_ratings ids.now ratings.now) weights candidates) result }
{
    selections::yilgashe_select_weighted(weights, candidates, ids, ratings)
}
