// Hard constraints and soft objectives together (policy.rs, MatchPolicy). An array of enums is no field of a struct, so the
// objectives stand beside the constraints as an array and a count.
#![tactic(auto)]

ghost use Rattle.std.specs.Prelude.{◌≡◌};
ghost use Rattle.roster.specs.Roster.{of_rules};
ghost use Rattle.matchmaker.specs.Quality.{match_of};
ghost use Rattle.base.specs.Refusals.{outcome_of};
ghost use Rattle.constraint.specs.Refusing.{constraints_rule};
ghost use Rattle.policy.specs.Policy.{policy_score_rule};

use base::Refusal;
use constraint::Constraints;
use matchmaker::ProposedMatch;
use objective::soft::SoftObjective;

// Does the match satisfy everything that is brought?
pub fn satisfies_constraints(
    constraints: Constraints,
    proposed: ProposedMatch,
    ids: &[u64],
    ratings: &[f64],
    parties: &[u64],
    roles: &[u32],
    regions: &[u8],
) -> Result<bool, Refusal>
    ensures { outcome_of result ≡ constraints_rule (of_rules ids.now ratings.now parties.now roles.now regions.now) constraints (match_of proposed) }
{
    constraints.is_satisfied(proposed, ids, ratings, parties, roles, regions)
}

// The weighted sum of the first `count` objectives, and minus infinity where a constraint is violated.
pub fn score(
    constraints: Constraints,
    objectives: [SoftObjective; 8],
    count: usize,
    proposed: ProposedMatch,
    ids: &[u64],
    ratings: &[f64],
    parties: &[u64],
    roles: &[u32],
    regions: &[u8],
) -> Result<f64, Refusal>
    ensures { outcome_of result ≡ policy_score_rule (of_rules ids.now ratings.now parties.now roles.now regions.now) constraints objectives count (match_of proposed) }
{
    if proposed.is_overfull() || constraints.is_over() || 8 < count {
        return Err(Refusal::OverLimit);
    }
    roster::check_rules(ids, ratings, parties, roles, regions)?;
    constraints.check_pairs()?;
    if !constraints.hold(proposed, ids, ratings, parties, roles, regions) {
        return Ok(-1.0 / 0.0);
    }
    Ok(objective::soft::rated_soft_score(objectives, count, proposed, ids, ratings))
}
