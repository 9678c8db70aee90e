// The roster's checks, exported.
ghost use Rattle.std.specs.Prelude.{◌≡◌};
ghost use Rattle.roster.specs.Roster.{roster_check};
ghost use Rattle.base.specs.Numbers.{refusal_of};

use crate::queues::refusal_number;

// The refusal of the six columns, or 0.
pub fn yilgashe_roster_check(
    ids: &[u64],
    ratings: &[f64],
    deviations: &[f64],
    parties: &[u64],
    roles: &[u32],
    regions: &[u8],
) -> u8
    ensures { result ≡ refusal_of (roster_check (record { ids = ids.entry.now; ratings = ratings.now; deviations = deviations.now; parties = parties.now; roles = roles.now; regions = regions.now })) }
{
    refusal_number(roster::check_roster(ids, ratings, deviations, parties, roles, regions))
}
