// The exports of `capi::rules`: each is the function of its name there, and promises what that promises.
ghost use Rattle.std.specs.Prelude.{◌≡◌};
ghost use Rattle.roster.specs.Roster.{of_ratings, of_parties, of_roles, of_regions, of_rules};
ghost use Rattle.matchmaker.specs.Quality.{team_of, match_of};
ghost use Rattle.constraint.specs.Refusing.{sizes_rule, roles_rule, parties_rule, latency_rule, regions_rule, constraints_rule, validate_rule};
ghost use Rattle.capi.specs.Rules.{roles_of, constraints_of, verdict_numbers, validity_numbers, policy_numbers};
ghost use Rattle.capi.specs.Scores.{scored_numbers};

use capi::rules;
use capi::rules::{Constraints, RoleRequirements, Validity, Verdict};
use capi::scores::{Scored, SoftObjectives};
use constraint::regions::RegionConstraint;
use constraint::sizes::TeamSizeConstraint;
use matchmaker::{ProposedMatch, Team};

#[unsafe(no_mangle)]
pub extern "C" fn yilgashe_sizes_satisfied(
    sizes: TeamSizeConstraint,
    proposed: ProposedMatch,
) -> Verdict
    ensures { result ≡ verdict_numbers (sizes_rule sizes (match_of proposed)) }
{
    rules::yilgashe_sizes_satisfied(sizes, proposed)
}

#[unsafe(no_mangle)]
pub extern "C" fn yilgashe_roles_satisfied(
    requirements: RoleRequirements,
    proposed: ProposedMatch,
    ids: &[u64],
    roles: &[u32],
) -> Verdict
    ensures { result ≡ verdict_numbers (roles_rule (of_roles ids.now roles.now) (roles_of requirements) (match_of proposed)) }
{
    rules::yilgashe_roles_satisfied(requirements, proposed, ids, roles)
}

#[unsafe(no_mangle)]
pub extern "C" fn yilgashe_parties_satisfied(
    proposed: ProposedMatch,
    ids: &[u64],
    parties: &[u64],
) -> Verdict
    ensures { result ≡ verdict_numbers (parties_rule (of_parties ids.now parties.now) (match_of proposed)) }
{
    rules::yilgashe_parties_satisfied(proposed, ids, parties)
}

#[unsafe(no_mangle)]
pub extern "C" fn yilgashe_latency_satisfied(
    proposed: ProposedMatch,
    ids: &[u64],
    ratings: &[f64],
) -> Verdict
    ensures { result ≡ verdict_numbers (latency_rule (of_ratings ids.now ratings.now) (match_of proposed)) }
{
    rules::yilgashe_latency_satisfied(proposed, ids, ratings)
}

#[unsafe(no_mangle)]
pub extern "C" fn yilgashe_regions_satisfied(
    allowed: RegionConstraint,
    proposed: ProposedMatch,
    ids: &[u64],
    regions: &[u8],
) -> Verdict
    ensures { result ≡ verdict_numbers (regions_rule (of_regions ids.now regions.now) allowed (match_of proposed)) }
{
    rules::yilgashe_regions_satisfied(allowed, proposed, ids, regions)
}

#[unsafe(no_mangle)]
pub extern "C" fn yilgashe_constraints_satisfied(
    constraints: Constraints,
    proposed: ProposedMatch,
    ids: &[u64],
    ratings: &[f64],
    parties: &[u64],
    roles: &[u32],
    regions: &[u8],
) -> Verdict
    ensures { result ≡ verdict_numbers (constraints_rule (of_rules ids.now ratings.now parties.now roles.now regions.now) (constraints_of constraints) (match_of proposed)) }
{
    rules::yilgashe_constraints_satisfied(
        constraints,
        proposed,
        ids,
        ratings,
        parties,
        roles,
        regions,
    )
}

#[unsafe(no_mangle)]
pub extern "C" fn yilgashe_team_validate(
    size: usize,
    requirements: RoleRequirements,
    team: Team,
    ids: &[u64],
    roles: &[u32],
) -> Validity
    ensures { result ≡ validity_numbers (validate_rule (of_roles ids.now roles.now) (record { size = size; roles = roles_of requirements }) (team_of team)) }
{
    rules::yilgashe_team_validate(size, requirements, team, ids, roles)
}

#[unsafe(no_mangle)]
pub extern "C" fn yilgashe_policy_score(
    constraints: Constraints,
    objectives: SoftObjectives,
    proposed: ProposedMatch,
    ids: &[u64],
    ratings: &[f64],
    parties: &[u64],
    roles: &[u32],
    regions: &[u8],
) -> Scored
    ensures { result ≡ scored_numbers (policy_numbers (of_rules ids.now ratings.now parties.now roles.now regions.now) constraints objectives (match_of proposed)) }
{
    rules::yilgashe_policy_score(
        constraints,
        objectives,
        proposed,
        ids,
        ratings,
        parties,
        roles,
        regions,
    )
}
