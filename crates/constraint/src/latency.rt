// Every seated rating is above 0.0 (MaxLatencyConstraint, as the Rust has it).
ghost use Rattle.std.specs.Prelude.{◌≡◌};
ghost use Rattle.base.specs.Lists.{every};
ghost use Rattle.base.specs.Refusals.{outcome_of};
ghost use Rattle.roster.specs.Roster.{of_ratings, rating_of};
ghost use Rattle.matchmaker.specs.Quality.{team_of, match_of};
ghost use Rattle.constraint.specs.Constraints.{above_zero, latency_holds};
ghost use Rattle.constraint.specs.Refusing.{latency_rule};

use base::Refusal;
use matchmaker::{ProposedMatch, Team};

// Is the player's rating above 0.0? A player without a row passes.
pub fn is_above_zero(ids: &[u64], ratings: &[f64], player: u64) -> bool
    ensures { result ≡ above_zero (rating_of (of_ratings ids.now ratings.now) player) }
{
    match roster::observation(ids, ratings, player) {
        Some(rating) => 0.0 < rating,
        None => true,
    }
}

// Is every rating of the team above 0.0?
fn is_team_above_zero(team: Team, ids: &[u64], ratings: &[f64]) -> bool
    ensures { result ≡ every (λ player. above_zero (rating_of (of_ratings ids.now ratings.now) player)) (team_of team).players }
{
    team.players[..team.held()]
        .iter()
        .all(|&player| is_above_zero(ids, ratings, player))
}

// Is every seated rating above 0.0?
pub(crate) fn holds(proposed: ProposedMatch, ids: &[u64], ratings: &[f64]) -> bool
    ensures { result ≡ latency_holds (of_ratings ids.now ratings.now) (match_of proposed) }
{
    is_team_above_zero(proposed.a, ids, ratings) && is_team_above_zero(proposed.b, ids, ratings)
}

pub fn is_satisfied(proposed: ProposedMatch, ids: &[u64], ratings: &[f64]) -> Result<bool, Refusal>
    ensures { outcome_of result ≡ latency_rule (of_ratings ids.now ratings.now) (match_of proposed) }
{
    if proposed.is_overfull() {
        return Err(Refusal::OverLimit);
    }
    roster::check_ratings(ids, ratings)?;
    Ok(holds(proposed, ids, ratings))
}
