// ThresholdSelection: the first candidate at or above the minimum.
ghost use Rattle.std.specs.Prelude.{◌≡◌, ◌≤◌, take};
ghost use Rattle.base.specs.Refusals.{gives};
ghost use Rattle.ranking.specs.Order.{numbered};
ghost use Rattle.roster.specs.Roster.{of_ratings};
ghost use Rattle.selection.specs.Selection.{candidates_of, selected_of, stated, first_at_least, threshold_rule};

use crate::Selected;
use base::Refusal;
use matchmaker::ProposedMatch;
use objective::soft::SoftObjective;

// The place of the first of n scores at or above the minimum.
fn first_at_least(minimum: f64, scores: [f64; 64], n: usize) -> Selected
    requires { n ≤ 64 }
    ensures { selected_of result ≡ stated (gives (first_at_least minimum (numbered 0 (take n scores)))) }
{
    for i in 0..n {
        if minimum <= scores[i] {
            return crate::just(i);
        }
    }
    crate::nobody()
}

pub fn select(
    minimum: f64,
    objectives: [SoftObjective; 8],
    count: usize,
    candidates: [ProposedMatch; 64],
    n: usize,
    ids: &[u64],
    ratings: &[f64],
) -> Selected
    ensures { selected_of result ≡ stated (threshold_rule (of_ratings ids.now ratings.now) minimum objectives count (candidates_of candidates n)) }
{
    if let Err(refusal) = crate::check(candidates, n, count, ids, ratings) {
        return crate::refuse(refusal);
    }
    let scores = crate::scores(objectives, count, candidates, n, ids, ratings);
    first_at_least(minimum, scores, n)
}
