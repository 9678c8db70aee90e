// Matches gathered by value, and the sheets that they are written to.
#![tactic(auto)]

ghost use Rattle.std.specs.Prelude.{◌≡◌, [], map, length, take};
ghost use Rattle.roster.specs.Roster.{of_ratings};
ghost use Rattle.matchmaker.specs.Quality.{team_of, match_of, seated, quality_of};
ghost use Rattle.seating.specs.Seating.{sizes_over, are_short, lineup, matches_of, seats};
ghost use Rattle.seating.specs.Steps.{held_sizes, overlaid, joined_to, RatedOut};

use matchmaker::{ProposedMatch, Team};

// Whose turn it is to take a player.
pub mod turns;

// The check of what a search is given.
pub mod searching;

// The sizes of the two teams.
#[repr(C)]
#[derive(Clone, Copy)]
pub struct TeamComposition {
    pub a: usize,
    pub b: usize,
}

// The first `len` matches, in order. What stands behind them is free.
#[derive(Clone, Copy)]
pub struct Matches {
    pub items: [ProposedMatch; 64],
    pub len: usize,
}

impl TeamComposition {
    // Is a size over 8?
    pub fn is_over(self) -> bool
        ensures { result ≡ sizes_over self }
    {
        8 < self.a || 8 < self.b
    }

    // The sizes as far as a team goes: 8 at most, whatever is asked for.
    fn held(self) -> TeamComposition
        ensures { result ≡ held_sizes self }
    {
        TeamComposition {
            a: base::at_most(self.a, 8),
            b: base::at_most(self.b, 8),
        }
    }
}

// Is a sheet of these lengths too short to hold whatever 64 entries can form?
pub fn are_short(players: usize, qualities: usize) -> bool
    ensures { result ≡ are_short players qualities }
{
    players < 64 || qualities < 64
}

// ---- teams

// The team with one more player; a team of 8 takes no more.
pub fn joined(side: Team, player: u64) -> Team
    ensures { team_of result ≡ joined_to (team_of side) player }
{
    let n = side.held();
    if 8 <= n {
        return side;
    }
    let mut longer = side;
    longer.players[n] = player;
    longer.len = n + 1;
    longer
}

// Nobody seated.
pub fn nobody() -> ProposedMatch
    ensures { match_of result ≡ lineup [] [] }
{
    let side = Team {
        players: [0; 8],
        len: 0,
    };
    ProposedMatch { a: side, b: side }
}

// ---- the writer

// A team's players over the front of the sheet.
fn write_team(team: Team, sheet: &mut [u64])
    ensures { sheet.new ≡ overlaid (team_of team).players sheet.old }
{
    let n = base::at_most(team.held(), sheet.len());
    sheet[..n].copy_from_slice(&team.players[..n]);
}

// One match over the front of the sheet: team A, then B.
pub fn write_match(proposed: ProposedMatch, sheet: &mut [u64])
    ensures { sheet.new ≡ overlaid (seated (match_of proposed)) sheet.old }
{
    let at = base::at_most(proposed.a.held(), sheet.len());
    write_team(proposed.a, sheet);
    write_team(proposed.b, &mut sheet[at..]);
}

impl Matches {
    // How many matches are held: 64 at most, whatever number is stated.
    pub fn held(self) -> usize
        ensures { result ≡ length (matches_of self).items }
    {
        base::at_most(self.len, 64)
    }

    // The quality of each match.
    fn rated(self, ids: &[u64], ratings: &[f64]) -> [f64; 64]
        ensures { take (length (matches_of self).items) result ≡ map (λ m. quality_of (of_ratings ids.now ratings.now) m.a.players m.b.players) (matches_of self).items }
    {
        let mut out = [0.0; 64];
        for i in 0..self.held() {
            out[i] = self.items[i].rated_quality(ids, ratings);
        }
        out
    }

    // Every match into the rest of the sheet, the part behind the matches so far.
    pub fn write_players(self, sheet: &mut [u64])
        ensures { sheet.new ≡ overlaid (seats (matches_of self).items) sheet.old }
    {
        let mut at = 0;
        for &next in &self.items[..self.held()] {
            write_match(next, &mut sheet[at..]);
            at += base::at_most(next.seats(), sheet.len() - at);
        }
    }
}

// The first n qualities over the front of the sheet.
pub fn write_qualities(qualities: [f64; 64], n: usize, sheet: &mut [f64])
    ensures { sheet.new ≡ overlaid (take n qualities) sheet.old }
{
    let many = base::at_most(base::at_most(n, 64), sheet.len());
    sheet[..many].copy_from_slice(&qualities[..many]);
}

impl Matches {
    // Every match on the sheets with its quality by these columns, and their number.
    pub fn hand_out(
        self,
        ids: &[u64],
        ratings: &[f64],
        players: &mut [u64],
        qualities: &mut [f64],
    ) -> usize
        ensures { RatedOut (of_ratings ids.now ratings.now) (matches_of self).items players.old qualities.old result players.new qualities.new }
    {
        let n = self.held();
        let rated = self.rated(ids, ratings);
        self.write_players(players);
        write_qualities(rated, n, qualities);
        n
    }
}
