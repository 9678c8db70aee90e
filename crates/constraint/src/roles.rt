// How many of each role the match must and may have.
ghost use Rattle.std.specs.Prelude.{◌≡◌, length};
ghost use Rattle.base.specs.Refusals.{outcome_of};
ghost use Rattle.roster.specs.Roster.{of_roles};
ghost use Rattle.matchmaker.specs.Quality.{team_of, match_of, seated};
ghost use Rattle.constraint.specs.Constraints.{has_role, role_count, within_maximum, requirement_holds, requirements_of, roles_hold};
ghost use Rattle.constraint.specs.Refusing.{roles_over, roles_rule};

use base::Refusal;
use matchmaker::{ProposedMatch, Team};

// How many of a role there must and, where there is a maximum, may be. Role 0 is nobody's.
#[derive(Clone, Copy)]
pub struct RoleRequirement {
    pub role: u32,
    pub least: usize,
    pub most: Option<usize>,
}

// The first `count` requirements hold of both teams together.
#[derive(Clone, Copy)]
pub struct RoleConstraint {
    pub requirements: [RoleRequirement; 8],
    pub count: usize,
}

// Is the player rostered with the role?
fn has_role(ids: &[u64], roles: &[u32], role: u32, player: u64) -> bool
    ensures { result ≡ has_role (of_roles ids.now roles.now) role player }
{
    role != 0 && roster::role_of(ids, roles, player) == role
}

// How many of the team have the role.
pub(crate) fn count_role(team: Team, ids: &[u64], roles: &[u32], role: u32) -> usize
    ensures { result ≡ role_count (of_roles ids.now roles.now) role (team_of team).players }
{
    team.players[..team.held()]
        .iter()
        .filter(|&&player| has_role(ids, roles, role, player))
        .count()
}

// Is the count within the maximum, if there is one?
pub(crate) fn is_within(count: usize, most: Option<usize>) -> bool
    ensures { result ≡ within_maximum count most }
{
    match most {
        None => true,
        Some(limit) => count <= limit,
    }
}

impl RoleRequirement {
    // Does the requirement hold of both teams together?
    fn holds(self, proposed: ProposedMatch, ids: &[u64], roles: &[u32]) -> bool
        ensures { result ≡ requirement_holds (of_roles ids.now roles.now) (seated (match_of proposed)) self }
    {
        let count = count_role(proposed.a, ids, roles, self.role)
            + count_role(proposed.b, ids, roles, self.role);
        self.least <= count && is_within(count, self.most)
    }
}

impl RoleConstraint {
    // Are there over 8 requirements?
    pub(crate) fn is_over(self) -> bool
        ensures { result ≡ roles_over self }
    {
        8 < self.count
    }

    // How many requirements there are, whatever number is stated.
    pub fn held(self) -> usize
        ensures { result ≡ length (requirements_of self) }
    {
        base::at_most(self.count, 8)
    }

    // Does every requirement hold?
    pub(crate) fn holds(self, proposed: ProposedMatch, ids: &[u64], roles: &[u32]) -> bool
        ensures { result ≡ roles_hold (of_roles ids.now roles.now) self (match_of proposed) }
    {
        self.requirements[..self.held()]
            .iter()
            .all(|requirement| requirement.holds(proposed, ids, roles))
    }

    pub fn is_satisfied(
        self,
        proposed: ProposedMatch,
        ids: &[u64],
        roles: &[u32],
    ) -> Result<bool, Refusal>
        ensures { outcome_of result ≡ roles_rule (of_roles ids.now roles.now) self (match_of proposed) }
    {
        if proposed.is_overfull() || self.is_over() {
            return Err(Refusal::OverLimit);
        }
        roster::check_columns(ids, &[roles.len()])?;
        Ok(self.holds(proposed, ids, roles))
    }
}
