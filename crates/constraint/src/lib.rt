// The hard constraints of a match (constraint.rs). Each kind judges a match by the columns that it reads; `Constraints` brings any
// of the five together.
#![tactic(auto)]

ghost use Rattle.std.specs.Prelude.{◌≡◌, not, ◌&&◌, ◌||◌};
ghost use Rattle.base.specs.Refusals.{outcome_of};
ghost use Rattle.roster.specs.Roster.{of_ratings, of_parties, of_roles, of_regions, of_rules};
ghost use Rattle.matchmaker.specs.Quality.{match_of};
ghost use Rattle.constraint.specs.Constraints.{sizes_hold, roles_hold, parties_hold, latency_holds, regions_hold, constraints_hold};
ghost use Rattle.constraint.specs.Refusing.{both_sizes_over, roles_over, regions_over, constraints_over, brought_pairs_check, constraints_rule};

use crate::regions::RegionConstraint;
use crate::roles::RoleConstraint;
use crate::sizes::TeamSizeConstraint;
use base::Refusal;
use matchmaker::ProposedMatch;

pub mod latency;
pub mod parties;
pub mod regions;
pub mod roles;
pub mod sizes;
pub mod teams;

// Which kinds of constraint a call brings.
#[repr(C)]
#[derive(Clone, Copy)]
pub struct Brought {
    pub sizes: bool,
    pub roles: bool,
    pub parties: bool,
    pub latency: bool,
    pub regions: bool,
}

// At most one of each kind; what is not brought is neither read nor checked.
#[derive(Clone, Copy)]
pub struct Constraints {
    pub brought: Brought,
    pub sizes: TeamSizeConstraint,
    pub roles: RoleConstraint,
    pub regions: RegionConstraint,
}

impl Constraints {
    // ---- each kind passes where it is not brought

    fn sizes_over(self) -> bool
        ensures { result ≡ (self.brought.sizes && both_sizes_over self.sizes) }
    {
        self.brought.sizes && self.sizes.is_over()
    }

    fn roles_over(self) -> bool
        ensures { result ≡ (self.brought.roles && roles_over self.roles) }
    {
        self.brought.roles && self.roles.is_over()
    }

    fn regions_over(self) -> bool
        ensures { result ≡ (self.brought.regions && regions_over self.regions) }
    {
        self.brought.regions && self.regions.is_over()
    }

    fn sizes_hold(self, proposed: ProposedMatch) -> bool
        ensures { result ≡ (not self.brought.sizes || sizes_hold self.sizes (match_of proposed)) }
    {
        !self.brought.sizes || self.sizes.holds(proposed)
    }

    fn roles_hold(self, proposed: ProposedMatch, ids: &[u64], roles: &[u32]) -> bool
        ensures { result ≡ (not self.brought.roles || roles_hold (of_roles ids.now roles.now) self.roles (match_of proposed)) }
    {
        !self.brought.roles || self.roles.holds(proposed, ids, roles)
    }

    fn parties_hold(self, proposed: ProposedMatch, ids: &[u64], parties: &[u64]) -> bool
        ensures { result ≡ (not self.brought.parties || parties_hold (of_parties ids.now parties.now) (match_of proposed)) }
    {
        !self.brought.parties || crate::parties::holds(proposed, ids, parties)
    }

    fn latency_holds(self, proposed: ProposedMatch, ids: &[u64], ratings: &[f64]) -> bool
        ensures { result ≡ (not self.brought.latency || latency_holds (of_ratings ids.now ratings.now) (match_of proposed)) }
    {
        !self.brought.latency || crate::latency::holds(proposed, ids, ratings)
    }

    fn regions_hold(self, proposed: ProposedMatch, ids: &[u64], regions: &[u8]) -> bool
        ensures { result ≡ (not self.brought.regions || regions_hold (of_regions ids.now regions.now) self.regions (match_of proposed)) }
    {
        !self.brought.regions || self.regions.holds(proposed, ids, regions)
    }

    // ---- all together

    // Is what is brought over a limit?
    pub fn is_over(self) -> bool
        ensures { result ≡ constraints_over self }
    {
        self.sizes_over() || self.roles_over() || self.regions_over()
    }

    // Refusal 2 of the region pairs, where these are brought.
    pub fn check_pairs(self) -> Result<(), Refusal>
        ensures { outcome_of result ≡ brought_pairs_check self }
    {
        if self.brought.regions {
            self.regions.check()
        } else {
            Ok(())
        }
    }

    // Does everything that is brought hold?
    pub fn hold(
        self,
        proposed: ProposedMatch,
        ids: &[u64],
        ratings: &[f64],
        parties: &[u64],
        roles: &[u32],
        regions: &[u8],
    ) -> bool
        ensures { result ≡ constraints_hold (of_rules ids.now ratings.now parties.now roles.now regions.now) self (match_of proposed) }
    {
        self.sizes_hold(proposed)
            && self.roles_hold(proposed, ids, roles)
            && self.parties_hold(proposed, ids, parties)
            && self.latency_holds(proposed, ids, ratings)
            && self.regions_hold(proposed, ids, regions)
    }

    pub fn is_satisfied(
        self,
        proposed: ProposedMatch,
        ids: &[u64],
        ratings: &[f64],
        parties: &[u64],
        roles: &[u32],
        regions: &[u8],
    ) -> Result<bool, Refusal>
        ensures { outcome_of result ≡ constraints_rule (of_rules ids.now ratings.now parties.now roles.now regions.now) self (match_of proposed) }
    {
        if proposed.is_overfull() || self.is_over() {
            return Err(Refusal::OverLimit);
        }
        roster::check_rules(ids, ratings, parties, roles, regions)?;
        self.check_pairs()?;
        Ok(self.hold(proposed, ids, ratings, parties, roles, regions))
    }
}
