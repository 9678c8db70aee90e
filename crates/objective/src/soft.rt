// The soft objectives: what a full round ranks the choices by.
ghost use Rattle.std.specs.Prelude.{◌≡◌, take};
ghost use Rattle.roster.specs.Roster.{of_ratings};
ghost use Rattle.matchmaker.specs.Quality.{match_of};
ghost use Rattle.base.specs.Refusals.{outcome_of};
ghost use Rattle.objective.specs.Soft.{weight_of, soft_value, latency_at, latency_of, weighted, weighted_sum, soft_value_rule, soft_score_of, soft_score_rule};

use base::Refusal;
use matchmaker::ProposedMatch;

// One of three kinds, each with its weight.
#[derive(Clone, Copy)]
pub enum SoftObjective {
    Skill(f64),
    Latency(f64),
    Wait(f64),
}

// The latency of an average rating, as the Rust has it.
pub fn latency_at(average: f64) -> f64
    ensures { result ≡ latency_at average }
{
    1.0 - base::min(average / 200.0, 1.0)
}

// The latency of a match of any stated lengths by any columns.
pub fn rated_latency(proposed: ProposedMatch, ids: &[u64], ratings: &[f64]) -> f64
    ensures { result ≡ latency_of (of_ratings ids.now ratings.now) (match_of proposed) }
{
    let of_a = proposed.a.add_to(0.0, ids, ratings);
    let sum = proposed.b.add_to(of_a, ids, ratings);
    latency_at(matchmaker::average(sum, proposed.seats()))
}

impl SoftObjective {
    pub fn weight(self) -> f64
        ensures { result ≡ weight_of self }
    {
        match self {
            SoftObjective::Skill(w) => w,
            SoftObjective::Latency(w) => w,
            SoftObjective::Wait(w) => w,
        }
    }

    // Its value for a match whose quality and latency are known.
    pub fn value_from(self, quality: f64, latency: f64) -> f64
        ensures { result ≡ soft_value quality latency self }
    {
        match self {
            SoftObjective::Skill(_) => quality,
            SoftObjective::Latency(_) => latency,
            SoftObjective::Wait(_) => 0.5,
        }
    }

    // Its value for a match, without its weight.
    pub fn value(
        self,
        proposed: ProposedMatch,
        ids: &[u64],
        ratings: &[f64],
    ) -> Result<f64, Refusal>
        ensures { outcome_of result ≡ soft_value_rule (of_ratings ids.now ratings.now) (match_of proposed) self }
    {
        if proposed.is_overfull() {
            return Err(Refusal::OverLimit);
        }
        roster::check_ratings(ids, ratings)?;
        let quality = proposed.rated_quality(ids, ratings);
        let latency = rated_latency(proposed, ids, ratings);
        Ok(self.value_from(quality, latency))
    }
}

// The sum with one more objective's weight times its value.
fn add_weighted(sum: f64, objective: SoftObjective, quality: f64, latency: f64) -> f64
    ensures { result ≡ weighted quality latency sum objective }
{
    sum + objective.weight() * objective.value_from(quality, latency)
}

// The weighted sum of the first `count` objectives, 8 at most, where quality and latency are known.
pub fn weighted_sum(objectives: [SoftObjective; 8], count: usize, quality: f64, latency: f64) -> f64
    ensures { result ≡ weighted_sum quality latency (take count objectives) }
{
    let mut sum = 0.0;
    for &objective in &objectives[..base::at_most(count, 8)] {
        sum = add_weighted(sum, objective, quality, latency);
    }
    sum
}

// The score of a match of any stated lengths by any columns.
pub fn rated_soft_score(
    objectives: [SoftObjective; 8],
    count: usize,
    proposed: ProposedMatch,
    ids: &[u64],
    ratings: &[f64],
) -> f64
    ensures { result ≡ soft_score_of (of_ratings ids.now ratings.now) (match_of proposed) (take count objectives) }
{
    let quality = proposed.rated_quality(ids, ratings);
    let latency = rated_latency(proposed, ids, ratings);
    weighted_sum(objectives, count, quality, latency)
}

// The score of a match by the first `count` objectives.
pub fn soft_score(
    objectives: [SoftObjective; 8],
    count: usize,
    proposed: ProposedMatch,
    ids: &[u64],
    ratings: &[f64],
) -> Result<f64, Refusal>
    ensures { outcome_of result ≡ soft_score_rule (of_ratings ids.now ratings.now) (match_of proposed) objectives count }
{
    if proposed.is_overfull() {
        return Err(Refusal::OverLimit);
    }
    if 8 < count {
        return Err(Refusal::OverLimit);
    }
    roster::check_ratings(ids, ratings)?;
    Ok(rated_soft_score(objectives, count, proposed, ids, ratings))
}
