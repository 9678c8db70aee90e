// One team's size and roles (TeamConstraint).
ghost use Rattle.std.specs.Prelude.{◌≡◌};
ghost use Rattle.base.specs.Refusals.{outcome_of};
ghost use Rattle.roster.specs.Roster.{of_roles};
ghost use Rattle.matchmaker.specs.Quality.{team_of};
ghost use Rattle.constraint.specs.Refusing.{report_from, validate_rule};
ghost use Rattle.constraint.specs.Constraints.{requirements_of};

use crate::roles::RoleConstraint;
use base::Refusal;
use matchmaker::Team;

#[derive(Clone, Copy)]
pub struct TeamConstraint {
    pub size: usize,
    pub roles: RoleConstraint,
}

// The first fault of a team; a role's fault with the place of its requirement.
#[derive(Clone, Copy)]
pub enum Validity {
    Valid,
    WrongSize,
    TooFew(usize),
    TooMany(usize),
}

impl TeamConstraint {
    // The first requirement that the team fails.
    fn first_fault(self, team: Team, ids: &[u64], roles: &[u32]) -> Validity
        ensures { result ≡ report_from (of_roles ids.now roles.now) (team_of team).players 0 (requirements_of self.roles) }
    {
        let all = self.roles;
        for (i, requirement) in all.requirements[..all.held()].iter().enumerate() {
            let count = crate::roles::count_role(team, ids, roles, requirement.role);
            if count < requirement.least {
                return Validity::TooFew(i);
            }
            if !crate::roles::is_within(count, requirement.most) {
                return Validity::TooMany(i);
            }
        }
        Validity::Valid
    }

    // The first of size, then per requirement minimum, then maximum.
    pub fn validate(self, team: Team, ids: &[u64], roles: &[u32]) -> Result<Validity, Refusal>
        ensures { outcome_of result ≡ validate_rule (of_roles ids.now roles.now) self (team_of team) }
    {
        if 8 < team.len || 8 < self.size || self.roles.is_over() {
            return Err(Refusal::OverLimit);
        }
        roster::check_columns(ids, &[roles.len()])?;
        if team.len != self.size {
            return Ok(Validity::WrongSize);
        }
        Ok(self.first_fault(team, ids, roles))
    }
}
