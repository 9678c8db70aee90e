// GreedySelection: the last of the candidates that score highest.
ghost use Rattle.std.specs.Prelude.{◌≡◌, [], ◌∷◌, ◌≤◌, ◌<◌, take};
ghost use Rattle.ranking.specs.Order.{numbered};
ghost use Rattle.roster.specs.Roster.{of_ratings};
ghost use Rattle.selection.specs.Selection.{candidates_of, selected_of, stated, best_of, greedy_selection_rule};

use crate::Selected;
use base::Refusal;
use matchmaker::ProposedMatch;
use objective::soft::SoftObjective;

// The place of the last of the highest among the first n scores.
fn last_best(scores: [f64; 64], n: usize) -> usize
    requires { (0 < n) × (n ≤ 64) }
    ensures { result ∷ [] ≡ best_of (numbered 0 (take n scores)) }
{
    let mut best = 0;
    for i in 1..n {
        let lower = scores[i] < scores[best];
        if !lower {
            best = i;
        }
    }
    best
}

pub fn select(
    objectives: [SoftObjective; 8],
    count: usize,
    candidates: [ProposedMatch; 64],
    n: usize,
    ids: &[u64],
    ratings: &[f64],
) -> Selected
    ensures { selected_of result ≡ stated (greedy_selection_rule (of_ratings ids.now ratings.now) objectives count (candidates_of candidates n)) }
{
    if let Err(refusal) = crate::check(candidates, n, count, ids, ratings) {
        return crate::refuse(refusal);
    }
    let scores = crate::scores(objectives, count, candidates, n, ids, ratings);
    if ranking::is_unrankable(scores, n) {
        return crate::refuse(Refusal::Unranked);
    }
    if n == 0 {
        return crate::nobody();
    }
    crate::just(last_best(scores, n))
}
