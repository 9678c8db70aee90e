// The exports of `capi::rosters`: each is the function of its name there, and promises what that promises.
ghost use Rattle.std.specs.Prelude.{◌≡◌};
ghost use Rattle.roster.specs.Roster.{roster_check};
ghost use Rattle.base.specs.Numbers.{refusal_of};

use capi::rosters;

#[unsafe(no_mangle)]
pub extern "C" fn yilgashe_roster_check(
    ids: &[u64],
    ratings: &[f64],
    deviations: &[f64],
    parties: &[u64],
    roles: &[u32],
    regions: &[u8],
) -> u8
    ensures { result ≡ refusal_of (roster_check (record { ids = ids.entry.now; ratings = ratings.now; deviations = deviations.now; parties = parties.now; roles = roles.now; regions = regions.now })) }
{
    rosters::yilgashe_roster_check(ids, ratings, deviations, parties, roles, regions)
}
