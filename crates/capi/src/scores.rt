// Quality, scores, soft objectives and objective vectors, exported.
ghost use Rattle.std.specs.Prelude.{◌≡◌, min, take};
ghost use Rattle.base.specs.Lists.{any};
ghost use Rattle.base.specs.Refusals.{outcome_of};
ghost use Rattle.queue.specs.Queue.{queue_of};
ghost use Rattle.roster.specs.Roster.{of_ratings, of_deviations};
ghost use Rattle.matchmaker.specs.Quality.{match_of, quality_rule};
ghost use Rattle.objective.specs.Score.{score_rule};
ghost use Rattle.objective.specs.Pareto.{scalarized, dominates_of, zeros, default_weights};
ghost use Rattle.capi.specs.Scores.{scored_numbers, soft_of, is_no_kind, softs_of, soft_value_numbers, soft_score_numbers};

use base::Refusal;
use matchmaker::ProposedMatch;
use objective::pareto::{MatchObjectiveVector, ObjectiveWeights};
use objective::score::MatchObjective;
use objective::soft::SoftObjective;
use queue::Queue;

// The value is 0.0 where it is refused.
#[repr(C)]
#[derive(Clone, Copy)]
pub struct Scored {
    pub value: f64,
    pub refusal: u8,
}

// The first `len` soft objectives. Kind 0 is skill, 1 latency, 2 wait.
#[repr(C)]
#[derive(Clone, Copy)]
pub struct SoftObjectives {
    pub kinds: [u8; 8],
    pub weights: [f64; 8],
    pub len: usize,
}

// A score in numbers.
pub(crate) fn in_numbers(score: Result<f64, Refusal>) -> Scored
    ensures { result ≡ scored_numbers (outcome_of score) }
{
    match score {
        Err(refusal) => Scored {
            value: 0.0,
            refusal: refusal.number(),
        },
        Ok(value) => Scored { value, refusal: 0 },
    }
}

// A kind and a weight as an objective.
fn soft_of(kind: u8, weight: f64) -> SoftObjective
    ensures { result ≡ soft_of kind weight }
{
    if kind == 0 {
        return SoftObjective::Skill(weight);
    }
    if kind == 1 {
        return SoftObjective::Latency(weight);
    }
    SoftObjective::Wait(weight)
}

impl SoftObjectives {
    // How many there are, whatever number is stated.
    fn held(self) -> usize
        ensures { result ≡ min self.len 8 }
    {
        base::at_most(self.len, 8)
    }

    // Is a code among the first `len` no kind?
    pub(crate) fn has_no_kind(self) -> bool
        ensures { result ≡ any is_no_kind (take self.len self.kinds) }
    {
        self.kinds[..self.held()].iter().any(|kind| 2 < *kind)
    }

    // All eight, as objectives.
    pub(crate) fn objectives(self) -> [SoftObjective; 8]
        ensures { result ≡ softs_of self.kinds self.weights }
    {
        let kinds = self.kinds;
        let weights = self.weights;
        let mut out = [SoftObjective::Wait(0.0); 8];
        for i in 0..8 {
            out[i] = soft_of(kinds[i], weights[i]);
        }
        out
    }
}

pub fn yilgashe_match_quality(proposed: ProposedMatch, ids: &[u64], ratings: &[f64]) -> Scored
    ensures { result ≡ scored_numbers (quality_rule (of_ratings ids.now ratings.now) (match_of proposed)) }
{
    in_numbers(proposed.match_quality(ids, ratings))
}

pub fn yilgashe_match_score(
    objective: MatchObjective,
    proposed: ProposedMatch,
    queue: Queue,
    ids: &[u64],
    ratings: &[f64],
    deviations: &[f64],
    clock: u64,
) -> Scored
    ensures { result ≡ scored_numbers (score_rule objective (of_deviations ids.now ratings.now deviations.now) (queue_of queue) clock (match_of proposed)) }
{
    in_numbers(objective.score(proposed, queue, ids, ratings, deviations, clock))
}

// The objective's value for the match, without its weight.
pub fn yilgashe_soft_value(
    kind: u8,
    weight: f64,
    proposed: ProposedMatch,
    ids: &[u64],
    ratings: &[f64],
) -> Scored
    ensures { result ≡ scored_numbers (soft_value_numbers (of_ratings ids.now ratings.now) (match_of proposed) kind weight) }
{
    if 2 < kind {
        return Scored {
            value: 0.0,
            refusal: 1,
        };
    }
    in_numbers(soft_of(kind, weight).value(proposed, ids, ratings))
}

pub fn yilgashe_soft_score(
    objectives: SoftObjectives,
    proposed: ProposedMatch,
    ids: &[u64],
    ratings: &[f64],
) -> Scored
    ensures { result ≡ scored_numbers (soft_score_numbers (of_ratings ids.now ratings.now) (match_of proposed) objectives) }
{
    if objectives.has_no_kind() {
        return Scored {
            value: 0.0,
            refusal: 1,
        };
    }
    let softs = objectives.objectives();
    in_numbers(objective::soft::soft_score(softs, objectives.len, proposed, ids, ratings))
}

pub fn yilgashe_vector_scalarize(vector: MatchObjectiveVector, weights: ObjectiveWeights) -> f64
    ensures { result ≡ scalarized weights vector }
{
    vector.scalarize(weights)
}

pub fn yilgashe_vector_dominates(vector: MatchObjectiveVector, other: MatchObjectiveVector) -> bool
    ensures { result ≡ dominates_of vector other }
{
    vector.dominates(other)
}

pub fn yilgashe_vector_default() -> MatchObjectiveVector
    ensures { result ≡ zeros }
{
    MatchObjectiveVector::default()
}

pub fn yilgashe_weights_default() -> ObjectiveWeights
    ensures { result ≡ default_weights }
{
    ObjectiveWeights::default()
}
