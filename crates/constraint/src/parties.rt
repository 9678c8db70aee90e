// Parties sit together (PartyIntegrityConstraint).
ghost use Rattle.std.specs.Prelude.{◌≡◌, not, ◌&&◌, eqb};
ghost use Rattle.base.specs.Lists.{member};
ghost use Rattle.base.specs.Refusals.{outcome_of};
ghost use Rattle.roster.specs.Roster.{of_parties};
ghost use Rattle.matchmaker.specs.Quality.{match_of};
ghost use Rattle.constraint.specs.Constraints.{party_seated, party_together, parties_hold};
ghost use Rattle.constraint.specs.Refusing.{parties_rule};

use base::Refusal;
use matchmaker::ProposedMatch;

// Is the row's player among these, or the row of another party?
fn row_passes(players: &[u64], id: u64, row: u64, party: u64) -> bool
    ensures { result ≡ not (eqb row party && not (member id players.now)) }
{
    row != party || base::is_among(players, id)
}

// Is every row of the party among these?
fn is_party_seated(players: &[u64], ids: &[u64], parties: &[u64], party: u64) -> bool
    ensures { result ≡ party_seated ids.now parties.now players.now party }
{
    for row in 0..ids.len() {
        if parties.len() <= row {
            return true;
        }
        if !row_passes(players, ids[row], parties[row], party) {
            return false;
        }
    }
    true
}

// Is every row of the party among these players? Party 0 is none.
pub fn is_whole(players: &[u64], ids: &[u64], parties: &[u64], party: u64) -> bool
    ensures { result ≡ party_together (of_parties ids.now parties.now) players.now party }
{
    party == 0 || is_party_seated(players, ids, parties, party)
}

// Is the party of everyone seated, seated?
pub(crate) fn holds(proposed: ProposedMatch, ids: &[u64], parties: &[u64]) -> bool
    ensures { result ≡ parties_hold (of_parties ids.now parties.now) (match_of proposed) }
{
    let everyone = proposed.seated_players();
    let players = &everyone[..proposed.seats()];
    for &player in players {
        let party = roster::party_of(ids, parties, player);
        if !is_whole(players, ids, parties, party) {
            return false;
        }
    }
    true
}

pub fn is_satisfied(proposed: ProposedMatch, ids: &[u64], parties: &[u64]) -> Result<bool, Refusal>
    ensures { outcome_of result ≡ parties_rule (of_parties ids.now parties.now) (match_of proposed) }
{
    if proposed.is_overfull() {
        return Err(Refusal::OverLimit);
    }
    roster::check_columns(ids, &[parties.len()])?;
    Ok(holds(proposed, ids, parties))
}
