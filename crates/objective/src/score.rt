// MatchObjective and its score.
ghost use Rattle.std.specs.Prelude.{◌≡◌, length, take, drop};
ghost use mathlib.Core.List.{foldl};
ghost use Rattle.base.specs.Floats as Floats;
ghost use Rattle.queue.specs.Queue.{queue_of};
ghost use Rattle.roster.specs.Rows.{value_at};
ghost use Rattle.roster.specs.Roster.{of_deviations};
ghost use Rattle.matchmaker.specs.Quality.{match_of, seated, observations, sum_of};
ghost use Rattle.matchmaker.specs.Steps.{absorb, rows_quality};
ghost use Rattle.objective.specs.Score.{longer, score_from, score_rule};
ghost use Rattle.base.specs.Refusals.{outcome_of};
ghost use Rattle.objective.specs.Steps.{column_wait};

use base::Refusal;
use matchmaker::ProposedMatch;
use queue::Queue;

// The four weights.
#[repr(C)]
#[derive(Clone, Copy)]
pub struct MatchObjective {
    pub quality: f64,
    pub wait: f64,
    pub ping: f64,
    pub uncertainty: f64,
}

// The longer of two waits.
pub fn longer_of(x: f64, y: f64) -> f64
    ensures { result ≡ longer x y }
{
    if x < y { y } else { x }
}

// The longest wait in seconds, with one more player's, who may wait in several places: the first counts.
fn add_wait(longest: f64, waiting: &[u64], joined: &[u64], clock: u64, player: u64) -> f64
    ensures { result ≡ absorb longer longest (column_wait clock waiting.now joined.now player) }
{
    let place = roster::row_of(waiting, player);
    if waiting.len() <= place {
        return longest;
    }
    if joined.len() <= place {
        return longest;
    }
    let nanos = queue::time::elapsed(clock, joined[place]);
    longer_of(longest, queue::time::in_seconds(nanos))
}

// The longest wait in seconds of these players, at least 0.0, by the columns of those who wait.
fn longest_wait(players: &[u64], waiting: &[u64], joined: &[u64], clock: u64) -> f64
    ensures { result ≡ foldl longer Floats.zero (observations (column_wait clock waiting.now joined.now) players.now) }
{
    let mut longest = 0.0;
    for &player in players {
        longest = add_wait(longest, waiting, joined, clock, player);
    }
    longest
}

impl MatchObjective {
    // The score of a match whose quality, longest wait in seconds, sum of deviations and taken seats are known.
    pub fn score_from(self, quality: f64, wait: f64, deviations: f64, seats: usize) -> f64
        ensures { result ≡ score_from self quality wait deviations seats }
    {
        self.quality * quality
            - self.wait * (wait / 60.0)
            - self.ping * 0.0
            - self.uncertainty * (matchmaker::average(deviations, seats) / 350.0)
    }

    // The score of a match by the rows of everyone seated, team A then B, and by their longest wait.
    fn score_by_rows(
        self,
        proposed: ProposedMatch,
        rows: [usize; 16],
        ratings: &[f64],
        deviations: &[f64],
        wait: f64,
    ) -> f64
        ensures { result ≡ score_from self (rows_quality ratings.now (take (length (match_of proposed).a.players) rows) (take (length (match_of proposed).b.players) (drop (length (match_of proposed).a.players) rows))) wait (sum_of (observations (value_at deviations.now) (take (length (seated (match_of proposed))) rows))) (length (seated (match_of proposed))) }
    {
        let n = proposed.seats();
        let sum = matchmaker::add_rows(0.0, deviations, &rows[..n]);
        self.score_from(proposed.quality_by_rows(ratings, rows), wait, sum, n)
    }

    // The score of a match among those who wait.
    pub fn score(
        self,
        proposed: ProposedMatch,
        queue: Queue,
        ids: &[u64],
        ratings: &[f64],
        deviations: &[f64],
        clock: u64,
    ) -> Result<f64, Refusal>
        ensures { outcome_of result ≡ score_rule self (of_deviations ids.now ratings.now deviations.now) (queue_of queue) clock (match_of proposed) }
    {
        if proposed.is_overfull() {
            return Err(Refusal::OverLimit);
        }
        if 64 < queue.len {
            return Err(Refusal::OverLimit);
        }
        let everyone = proposed.seated_players();
        let players = &everyone[..proposed.seats()];
        let mut rows = [0; 16];
        roster::checked_rows(ids, &[ratings.len(), deviations.len()], players, &mut rows)?;
        if queue::time::is_over(clock) {
            return Err(Refusal::Clock);
        }
        let columns = queue.columns();
        let waiting = &columns.players[..queue.len];
        let joined = &columns.joined[..queue.len];
        if queue::time::any_over(joined) {
            return Err(Refusal::Clock);
        }
        let wait = longest_wait(players, waiting, joined, clock);
        Ok(self.score_by_rows(proposed, rows, ratings, deviations, wait))
    }
}
