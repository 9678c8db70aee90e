// Constraints and policy, exported.
ghost use Rattle.std.specs.Prelude.{◌≡◌};
ghost use Rattle.base.specs.Refusals.{outcome_of};
ghost use Rattle.roster.specs.Roster.{of_ratings, of_parties, of_roles, of_regions, of_rules};
ghost use Rattle.matchmaker.specs.Quality.{team_of, match_of};
ghost use Rattle.constraint.specs.Refusing.{sizes_rule, roles_rule, parties_rule, latency_rule, regions_rule, constraints_rule, validate_rule};
ghost use Rattle.capi.specs.Rules.{requirement_of, roles_of, constraints_of, verdict_numbers, validity_numbers, policy_numbers};
ghost use Rattle.capi.specs.Scores.{scored_numbers};

use crate::scores::{Scored, SoftObjectives, in_numbers};
use base::Refusal;
use constraint::Brought;
use constraint::regions::RegionConstraint;
use constraint::roles::RoleConstraint;
use constraint::sizes::TeamSizeConstraint;
use constraint::teams::TeamConstraint;
use matchmaker::{ProposedMatch, Team};

// How many of a role there must be, and, where it is bounded, may be.
#[repr(C)]
#[derive(Clone, Copy)]
pub struct RoleRequirement {
    pub role: u32,
    pub least: usize,
    pub bounded: bool,
    pub most: usize,
}

// The first `len` requirements.
#[repr(C)]
#[derive(Clone, Copy)]
pub struct RoleRequirements {
    pub items: [RoleRequirement; 8],
    pub len: usize,
}

// What is not brought is not read.
#[repr(C)]
#[derive(Clone, Copy)]
pub struct Constraints {
    pub brought: Brought,
    pub sizes: TeamSizeConstraint,
    pub roles: RoleRequirements,
    pub regions: RegionConstraint,
}

#[repr(C)]
#[derive(Clone, Copy)]
pub struct Verdict {
    pub satisfied: bool,
    pub refusal: u8,
}

// Fault 0 is none, 1 the size, 2 too few and 3 too many of the requirement at the place.
#[repr(C)]
#[derive(Clone, Copy)]
pub struct Validity {
    pub place: usize,
    pub fault: u8,
    pub refusal: u8,
}

fn requirement_of(r: RoleRequirement) -> constraint::roles::RoleRequirement
    ensures { result ≡ requirement_of r }
{
    if r.bounded {
        return constraint::roles::RoleRequirement {
            role: r.role,
            least: r.least,
            most: Some(r.most),
        };
    }
    constraint::roles::RoleRequirement {
        role: r.role,
        least: r.least,
        most: None,
    }
}

fn roles_of(r: RoleRequirements) -> RoleConstraint
    ensures { result ≡ roles_of r }
{
    RoleConstraint {
        requirements: r.items.map(requirement_of),
        count: r.len,
    }
}

pub(crate) fn constraints_of(c: Constraints) -> constraint::Constraints
    ensures { result ≡ constraints_of c }
{
    let brought = c.brought;
    let sizes = c.sizes;
    let required = c.roles;
    let regions = c.regions;
    constraint::Constraints {
        brought,
        sizes,
        roles: roles_of(required),
        regions,
    }
}

fn verdict_numbers(verdict: Result<bool, Refusal>) -> Verdict
    ensures { result ≡ verdict_numbers (outcome_of verdict) }
{
    match verdict {
        Err(refusal) => Verdict {
            satisfied: false,
            refusal: refusal.number(),
        },
        Ok(satisfied) => Verdict {
            satisfied,
            refusal: 0,
        },
    }
}

fn validity_numbers(validity: Result<constraint::teams::Validity, Refusal>) -> Validity
    ensures { result ≡ validity_numbers (outcome_of validity) }
{
    let (fault, place, refusal) = match validity {
        Err(refusal) => (0, 0, refusal.number()),
        Ok(constraint::teams::Validity::Valid) => (0, 0, 0),
        Ok(constraint::teams::Validity::WrongSize) => (1, 0, 0),
        Ok(constraint::teams::Validity::TooFew(place)) => (2, place, 0),
        Ok(constraint::teams::Validity::TooMany(place)) => (3, place, 0),
    };
    Validity {
        place,
        fault,
        refusal,
    }
}

pub fn yilgashe_sizes_satisfied(sizes: TeamSizeConstraint, proposed: ProposedMatch) -> Verdict
    ensures { result ≡ verdict_numbers (sizes_rule sizes (match_of proposed)) }
{
    verdict_numbers(sizes.is_satisfied(proposed))
}

pub fn yilgashe_roles_satisfied(
    requirements: RoleRequirements,
    proposed: ProposedMatch,
    ids: &[u64],
    roles: &[u32],
) -> Verdict
    ensures { result ≡ verdict_numbers (roles_rule (of_roles ids.now roles.now) (roles_of requirements) (match_of proposed)) }
{
    let required = roles_of(requirements);
    verdict_numbers(required.is_satisfied(proposed, ids, roles))
}

pub fn yilgashe_parties_satisfied(proposed: ProposedMatch, ids: &[u64], parties: &[u64]) -> Verdict
    ensures { result ≡ verdict_numbers (parties_rule (of_parties ids.now parties.now) (match_of proposed)) }
{
    verdict_numbers(constraint::parties::is_satisfied(proposed, ids, parties))
}

pub fn yilgashe_latency_satisfied(proposed: ProposedMatch, ids: &[u64], ratings: &[f64]) -> Verdict
    ensures { result ≡ verdict_numbers (latency_rule (of_ratings ids.now ratings.now) (match_of proposed)) }
{
    verdict_numbers(constraint::latency::is_satisfied(proposed, ids, ratings))
}

pub fn yilgashe_regions_satisfied(
    allowed: RegionConstraint,
    proposed: ProposedMatch,
    ids: &[u64],
    regions: &[u8],
) -> Verdict
    ensures { result ≡ verdict_numbers (regions_rule (of_regions ids.now regions.now) allowed (match_of proposed)) }
{
    verdict_numbers(allowed.is_satisfied(proposed, ids, regions))
}

pub fn yilgashe_constraints_satisfied(
    constraints: Constraints,
    proposed: ProposedMatch,
    ids: &[u64],
    ratings: &[f64],
    parties: &[u64],
    roles: &[u32],
    regions: &[u8],
) -> Verdict
    ensures { result ≡ verdict_numbers (constraints_rule (of_rules ids.now ratings.now parties.now roles.now regions.now) (constraints_of constraints) (match_of proposed)) }
{
    let all = constraints_of(constraints);
    verdict_numbers(policy::satisfies_constraints(
        all, proposed, ids, ratings, parties, roles, regions,
    ))
}

pub fn yilgashe_team_validate(
    size: usize,
    requirements: RoleRequirements,
    team: Team,
    ids: &[u64],
    roles: &[u32],
) -> Validity
    ensures { result ≡ validity_numbers (validate_rule (of_roles ids.now roles.now) (record { size = size; roles = roles_of requirements }) (team_of team)) }
{
    let rule = TeamConstraint {
        size,
        roles: roles_of(requirements),
    };
    validity_numbers(rule.validate(team, ids, roles))
}

// Minus infinity where a constraint is violated.
pub fn yilgashe_policy_score(
    constraints: Constraints,
    objectives: SoftObjectives,
    proposed: ProposedMatch,
    ids: &[u64],
    ratings: &[f64],
    parties: &[u64],
    roles: &[u32],
    regions: &[u8],
) -> Scored
    ensures { result ≡ scored_numbers (policy_numbers (of_rules ids.now ratings.now parties.now roles.now regions.now) constraints objectives (match_of proposed)) }
{
    if objectives.has_no_kind() {
        return Scored {
            value: 0.0,
            refusal: 1,
        };
    }
    let all = constraints_of(constraints);
    let softs = objectives.objectives();
    let n = objectives.len;
    in_numbers(policy::score(
        all, softs, n, proposed, ids, ratings, parties, roles, regions,
    ))
}
