// Greedy's turn rule, by which the beam goes too: whose turn it is to take a player, and when a match is complete.
ghost use Rattle.std.specs.Prelude.{◌≡◌};
ghost use Rattle.matchmaker.specs.Quality.{match_of};
ghost use Rattle.seating.specs.Steps.{held_sizes};
ghost use Rattle.seating.specs.Turns.{alone, seats_left, takes_a, grown, complete};

use crate::TeamComposition;
use matchmaker::{ProposedMatch, Team};

// The match that an anchor opens.
pub fn opened(player: u64) -> ProposedMatch
    ensures { match_of result ≡ alone player }
{
    ProposedMatch {
        a: Team {
            players: [player; 8],
            len: 1,
        },
        b: Team {
            players: [0; 8],
            len: 0,
        },
    }
}

// How many seats are left beside the anchor's, where a team seats 8 at most.
pub fn seats_left(sizes: TeamComposition) -> usize
    ensures { result ≡ seats_left (held_sizes sizes) }
{
    let a = base::at_most(sizes.a, 8);
    let b = base::at_most(sizes.b, 8);
    a.saturating_sub(1) + b
}

// Is it team A's turn?
pub fn takes_a(sizes: TeamComposition, proposed: ProposedMatch) -> bool
    ensures { result ≡ takes_a sizes (match_of proposed) }
{
    let m = proposed.a.held();
    let n = proposed.b.held();
    if sizes.a <= m {
        return false;
    }
    if m <= n {
        return true;
    }
    n == sizes.b
}

// One more player, by turn, where a team seats 8 at most.
pub fn seat_next(sizes: TeamComposition, proposed: ProposedMatch, player: u64) -> ProposedMatch
    ensures { match_of result ≡ grown (held_sizes sizes) (match_of proposed) player }
{
    let held = sizes.held();
    if takes_a(held, proposed) {
        return ProposedMatch {
            a: crate::joined(proposed.a, player),
            ..proposed
        };
    }
    if proposed.b.held() < held.b {
        return ProposedMatch {
            b: crate::joined(proposed.b, player),
            ..proposed
        };
    }
    proposed
}

// Are both teams of exactly their sizes?
pub fn is_complete(sizes: TeamComposition, proposed: ProposedMatch) -> bool
    ensures { result ≡ complete sizes (match_of proposed) }
{
    proposed.a.held() == sizes.a && proposed.b.held() == sizes.b
}
