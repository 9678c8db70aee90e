// Which regions may meet.
ghost use Rattle.std.specs.Prelude.{◌≡◌, ◌&&◌, eqb, length};
ghost use Rattle.base.specs.Lists.{any, every};
ghost use Rattle.base.specs.Refusals.{outcome_of};
ghost use Rattle.roster.specs.Roster.{of_regions, region_of};
ghost use Rattle.matchmaker.specs.Quality.{team_of, match_of};
ghost use Rattle.constraint.specs.Constraints.{allows, may_meet, pairs_of, regions_hold};
ghost use Rattle.constraint.specs.Refusing.{regions_over, is_pair, pairs_check, regions_rule};

use base::Refusal;
use matchmaker::{ProposedMatch, Team};

// Two regions that may meet.
#[repr(C)]
#[derive(Clone, Copy)]
pub struct RegionPair {
    pub first: u8,
    pub second: u8,
}

// Only the first `count` pairs may meet, either way round.
#[repr(C)]
#[derive(Clone, Copy)]
pub struct RegionConstraint {
    pub pairs: [RegionPair; 16],
    pub count: usize,
}

impl RegionPair {
    // Is it these two, in this order?
    fn is_just(self, x: u8, y: u8) -> bool
        ensures { result ≡ (eqb self.first x && eqb self.second y) }
    {
        self.first == x && self.second == y
    }

    // Is it these two, either way round?
    fn is_of(self, x: u8, y: u8) -> bool
        ensures { result ≡ allows x y self }
    {
        self.is_just(x, y) || self.is_just(y, x)
    }

    // Are both region codes?
    fn is_valid(self) -> bool
        ensures { result ≡ is_pair self }
    {
        self.first <= 4 && self.second <= 4
    }
}

impl RegionConstraint {
    // Are there over 16 pairs?
    pub(crate) fn is_over(self) -> bool
        ensures { result ≡ regions_over self }
    {
        16 < self.count
    }

    // How many pairs there are, whatever number is stated.
    fn held(self) -> usize
        ensures { result ≡ length (pairs_of self) }
    {
        base::at_most(self.count, 16)
    }

    // Refusal 2 of a pair.
    pub(crate) fn check(self) -> Result<(), Refusal>
        ensures { outcome_of result ≡ pairs_check self }
    {
        if self.pairs[..self.held()].iter().all(|pair| pair.is_valid()) {
            Ok(())
        } else {
            Err(Refusal::BadRoster)
        }
    }

    // Is a pair these two, either way round?
    fn is_allowed(self, x: u8, y: u8) -> bool
        ensures { result ≡ any (allows x y) (pairs_of self) }
    {
        self.pairs[..self.held()]
            .iter()
            .any(|pair| pair.is_of(x, y))
    }

    // May the two regions meet? One without a record may meet any.
    pub fn may_meet(self, x: u8, y: u8) -> bool
        ensures { result ≡ may_meet (pairs_of self) x y }
    {
        x == 4 || y == 4 || self.is_allowed(x, y)
    }

    // May the player meet everyone of the team?
    fn meets_team(self, player: u64, team: Team, ids: &[u64], regions: &[u8]) -> bool
        ensures { result ≡ every (λ q. may_meet (pairs_of self) (region_of (of_regions ids.now regions.now) player) (region_of (of_regions ids.now regions.now) q)) (team_of team).players }
    {
        let region = roster::region_of(ids, regions, player);
        team.players[..team.held()].iter().all(|&other| self.may_meet(
            region,
            roster::region_of(ids, regions, other),
        ))
    }

    // May everyone of team A meet everyone of team B?
    pub(crate) fn holds(self, proposed: ProposedMatch, ids: &[u64], regions: &[u8]) -> bool
        ensures { result ≡ regions_hold (of_regions ids.now regions.now) self (match_of proposed) }
    {
        let a = proposed.a;
        let b = proposed.b;
        a.players[..a.held()]
            .iter()
            .all(|&player| self.meets_team(player, b, ids, regions))
    }

    pub fn is_satisfied(
        self,
        proposed: ProposedMatch,
        ids: &[u64],
        regions: &[u8],
    ) -> Result<bool, Refusal>
        ensures { outcome_of result ≡ regions_rule (of_regions ids.now regions.now) self (match_of proposed) }
    {
        if proposed.is_overfull() || self.is_over() {
            return Err(Refusal::OverLimit);
        }
        roster::check_columns_with_regions(ids, &[regions.len()], regions)?;
        self.check()?;
        Ok(self.holds(proposed, ids, regions))
    }
}
