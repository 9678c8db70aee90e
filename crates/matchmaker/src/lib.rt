// Teams, proposed matches and match quality (matchmaker.rs).
#![tactic(auto)]

ghost use Rattle.std.specs.Prelude.{◌≡◌, ◌+◌, ◌≤◌, ◌++◌, length, take, drop, replicate};
ghost use mathlib.Core.List.{foldl};
ghost use Rattle.std.specs.Float.Ieee as Ieee;
ghost use Rattle.std.specs.Float.{binary64};
ghost use Rattle.base.specs.Sheets.{laid};
ghost use Rattle.roster.specs.Roster.{of_ratings, observe};
ghost use Rattle.roster.specs.Rows.{value_at};
ghost use Rattle.matchmaker.specs.Quality.{team_of, match_of, overfull, seated, observations, average_from, average_of, quality_between, quality_of, QualityPromise};
ghost use Rattle.matchmaker.specs.Steps.{absorb, rows_average, rows_quality};

use base::Refusal;

// The first `len` players, in order. What stands behind them is free.
#[repr(C)]
#[derive(Clone, Copy)]
pub struct Team {
    pub players: [u64; 8],
    pub len: usize,
}

#[repr(C)]
#[derive(Clone, Copy)]
pub struct ProposedMatch {
    pub a: Team,
    pub b: Team,
}

// ---- leaves, for every length and every column

// The sum with what was observed of one more player.
pub fn add_observed(sum: f64, observed: Option<f64>) -> f64
    ensures { result ≡ absorb (Ieee.add binary64) sum observed }
{
    match observed {
        Some(x) => sum + x,
        None => sum,
    }
}

// The sum with what the column says of one more player.
fn add_player(sum: f64, ids: &[u64], column: &[f64], player: u64) -> f64
    ensures { result ≡ absorb (Ieee.add binary64) sum (observe ids.now column.now player) }
{
    add_observed(sum, roster::observation(ids, column, player))
}

// A team's sum divided by its length, or by 1 where it is empty.
pub fn average(sum: f64, len: usize) -> f64
    ensures { result ≡ average_from sum len }
{
    sum / std::num::nearest_u64_to_f64(len.max(1) as u64)
}

// The quality of two averages. Those 400 points apart or more are not divided, nor is a NaN, which fails a test. The tests come before `abs`: behind it
// the compiler would divide first and test then.
pub fn quality_between(x: f64, y: f64) -> f64
    ensures { result ≡ quality_between x y }
{
    let difference = x - y;
    if difference < 400.0 && -400.0 < difference {
        return 1.0 - base::abs(difference) / 400.0;
    }
    0.0
}

// The sum with what the column says in these rows, in their order.
pub fn add_rows(sum: f64, column: &[f64], rows: &[usize]) -> f64
    ensures { result ≡ foldl (Ieee.add binary64) sum (observations (value_at column.now) rows.now) }
{
    let mut so_far = sum;
    for &row in rows {
        so_far = add_observed(so_far, roster::observed_at(column, row));
    }
    so_far
}

// The average of what the column says in these rows.
pub fn average_of_rows(column: &[f64], rows: &[usize]) -> f64
    ensures { result ≡ rows_average column.now rows.now }
{
    average(add_rows(0.0, column, rows), rows.len())
}

impl Team {
    // How many players the team holds: 8 at most, whatever length it states.
    pub fn held(self) -> usize
        ensures { result ≡ length (team_of self).players }
    {
        base::at_most(self.len, 8)
    }

    // The sum with what the column says of the team's players, in their order.
    pub fn add_to(self, sum: f64, ids: &[u64], column: &[f64]) -> f64
        ensures { result ≡ foldl (Ieee.add binary64) sum (observations (observe ids.now column.now) (team_of self).players) }
    {
        let mut total = sum;
        for &player in &self.players[..self.held()] {
            total = add_player(total, ids, column, player);
        }
        total
    }

    // The team's players behind the first `at` of the array. All eight places are copied, whatever length is stated: that is the
    // quicker.
    fn seat(self, players: [u64; 16], at: usize) -> [u64; 16]
        requires { at ≤ 8 }
        ensures { (take (at + length (team_of self).players) result ≡ take at players ++ (team_of self).players) × (result ≡ laid players at self.players) }
    {
        let mut out = players;
        out[at..at + 8].copy_from_slice(&self.players);
        out
    }

    // The team's average rating: a player without a row counts in the length alone.
    pub fn average_rating(self, ids: &[u64], ratings: &[f64]) -> f64
        ensures { result ≡ average_of (of_ratings ids.now ratings.now) (team_of self).players }
    {
        average(self.add_to(0.0, ids, ratings), self.held())
    }
}

// ---- match quality

impl ProposedMatch {
    // How many are seated.
    pub fn seats(self) -> usize
        ensures { result ≡ length (seated (match_of self)) }
    {
        self.a.held() + self.b.held()
    }

    // Is a team over 8?
    pub fn is_overfull(self) -> bool
        ensures { result ≡ overfull (match_of self) }
    {
        8 < self.a.len || 8 < self.b.len
    }

    // The quality of two teams of any stated length by any columns.
    pub fn rated_quality(self, ids: &[u64], ratings: &[f64]) -> f64
        ensures { result ≡ quality_of (of_ratings ids.now ratings.now) (match_of self).a.players (match_of self).b.players }
    {
        quality_between(
            self.a.average_rating(ids, ratings),
            self.b.average_rating(ids, ratings),
        )
    }

    // Everyone seated in one array, read once: team A, then B. What stands behind them is what team B's array has behind its length, and
    // then team A's.
    pub fn seated_players(self) -> [u64; 16]
        ensures players_value { take (length (seated (match_of self))) result ≡ seated (match_of self) }
        ensures players_value_2 { result ≡ laid (laid (replicate 16 0) 0 self.a.players) (length (team_of self.a).players) self.b.players }
    {
        let first = self.a.seat([0; 16], 0);
        self.b.seat(first, self.a.held())
    }

    // The quality by the rows of everyone seated, team A then B.
    pub fn quality_by_rows(self, ratings: &[f64], rows: [usize; 16]) -> f64
        ensures { result ≡ rows_quality ratings.now (take (length (match_of self).a.players) rows) (take (length (match_of self).b.players) (drop (length (match_of self).a.players) rows)) }
    {
        let n = self.a.held();
        let end = self.seats();
        let x = average_of_rows(ratings, &rows[..n]);
        let y = average_of_rows(ratings, &rows[n..end]);
        quality_between(x, y)
    }

    // How even the teams are: 1.0 where their averages are equal, 0.0 where they differ by 400 points or more.
    pub fn match_quality(self, ids: &[u64], ratings: &[f64]) -> Result<f64, Refusal>
        ensures { QualityPromise (of_ratings ids.now ratings.now) (match_of self) result }
    {
        if self.is_overfull() {
            return Err(Refusal::OverLimit);
        }
        let everyone = self.seated_players();
        let players = &everyone[..self.seats()];
        let mut rows = [0; 16];
        roster::checked_rows(ids, &[ratings.len()], players, &mut rows)?;
        Ok(self.quality_by_rows(ratings, rows))
    }
}
