// GreedyNearestGenerator: the queue by rising rating, cut into matches.
ghost use Rattle.std.specs.Prelude.{◌≡◌, map, ◌+◌, ◌*◌, ◌≤◌, ◌<◌, length, take, drop, get_or};
ghost use Rattle.base.specs.Lists.{All};
ghost use Rattle.base.specs.Refusals.{gives};
ghost use Rattle.queue.specs.Queue.{queue_of};
ghost use Rattle.roster.specs.Roster.{of_ratings, ratings_check};
ghost use Rattle.ranking.specs.Order.{ascent_of, rising_rule};
ghost use Rattle.seating.specs.Seating.{leaving};
ghost use Rattle.seating.specs.Steps.{overlaid};
ghost use Rattle.candidate.specs.Nearest.{nearest_rule, rating_by};
ghost use Rattle.candidate.specs.Steps.{how_many};

use base::Refusal;
use queue::Queue;
use ranking::Ascent;
use seating::TeamComposition;

// At most how many matches it gives.
#[repr(C)]
#[derive(Clone, Copy)]
pub struct GreedyNearestGenerator {
    pub max: usize,
}

// ---- the order

// The players' ratings by a roster that passed its check.
fn ratings_of(players: &[u64], ids: &[u64], ratings: &[f64]) -> [f64; 64]
    requires { (length players.now ≤ 64) × (ratings_check (of_ratings ids.now ratings.now) ≡ gives tt) }
    ensures { take (length players.now) result ≡ map (rating_by (of_ratings ids.now ratings.now)) players.now }
{
    let mut rows = [0; 64];
    // Refuses nothing: the roster has passed this check.
    let _ = roster::checked_rows(ids, &[ratings.len()], players, &mut rows);
    let mut out = [0.0; 64];
    for i in 0..players.len() {
        out[i] = roster::observed_at(ratings, rows[i]).unwrap_or(1000.0);
    }
    out
}

// The players' places by rising rating.
fn by_rating(players: &[u64], ids: &[u64], ratings: &[f64]) -> Result<Ascent, Refusal>
    requires { (length players.now ≤ 64) × (ratings_check (of_ratings ids.now ratings.now) ≡ gives tt) }
    ensures { ascent_of result ≡ rising_rule (map (rating_by (of_ratings ids.now ratings.now)) players.now) }
{
    ranking::rising(ratings_of(players, ids, ratings), players.len())
}

// ---- the matches

// How many matches of so many seats n players fill, at most `limit`.
fn matches_of(seats: usize, limit: usize, n: usize) -> usize
    requires { 0 < seats }
    ensures { result ≡ how_many seats limit n }
{
    base::at_most(n / seats, limit)
}

// One match: the players at these places, over the front of the part of the sheet that it is lent.
fn write_match(waiting: &[u64; 64], places: &[usize], part: &mut [u64])
    requires { (length places.now ≤ length part.old) × All (λ p. p < 64) places.now }
    ensures { part.new ≡ overlaid (map (λ p. get_or waiting.now p 0) places.now) part.old }
{
    for (i, &place) in places.iter().enumerate() {
        part[i] = waiting[place];
    }
}

// Every match of so many seats into the rest of the sheet, the part behind the matches so far.
fn write_matches(
    waiting: &[u64; 64],
    places: &[usize; 64],
    seats: usize,
    count: usize,
    sheet: &mut [u64],
)
    requires seats_bound { (count * seats ≤ 64) × (64 ≤ length sheet.old) }
    requires all { All (λ p. p < 64) (take (count * seats) places.now) }
    ensures { sheet.new ≡ overlaid (map (λ p. get_or waiting.now p 0) (take (count * seats) places.now)) sheet.old }
{
    let mut at = 0;
    for _ in 0..count {
        write_match(waiting, &places[at..at + seats], &mut sheet[at..]);
        at += seats;
    }
}

impl GreedyNearestGenerator {
    // Neighbours by rating, written to the sheets with quality 0.0.
    pub fn generate_candidates(
        self,
        queue: Queue,
        sizes: TeamComposition,
        ids: &[u64],
        ratings: &[f64],
        players: &mut [u64],
        qualities: &mut [f64],
    ) -> Result<usize, Refusal>
        ensures { leaving result players.exit.now qualities.new ≡ nearest_rule self.max sizes (of_ratings ids.now ratings.now) (queue_of queue) (record { players = players.entry.now; qualities = qualities.old }) }
    {
        seating::searching::check(queue, sizes, ids, ratings, players.len(), qualities.len())?;
        let seats = sizes.a + sizes.b;
        if seats == 0 {
            return Err(Refusal::NoSeats);
        }
        if queue.len < seats {
            return Ok(0);
        }
        let waiting = queue.players();
        let order = by_rating(&waiting[..queue.len], ids, ratings)?;
        let places = order.places;
        let count = matches_of(seats, self.max, queue.len);
        write_matches(&waiting, &places, seats, count, players);
        seating::write_qualities([0.0; 64], count, qualities);
        Ok(count)
    }
}
