// The check of what a search is given, which the nearest generator shares.
ghost use Rattle.std.specs.Prelude.{◌≡◌};
ghost use Rattle.base.specs.Refusals.{outcome_of};
ghost use Rattle.queue.specs.Queue.{queue_of};
ghost use Rattle.roster.specs.Roster.{of_ratings};
ghost use Rattle.seating.specs.Searching.{search_check};
ghost use Rattle.seating.specs.Steps.{first_check};

use crate::TeamComposition;
use base::Refusal;
use queue::Queue;

// Refusals 1, 2 and 3, of all but the entries.
pub fn check_first(
    waiting: usize,
    sizes: TeamComposition,
    ids: &[u64],
    ratings: &[f64],
    players: usize,
    qualities: usize,
) -> Result<(), Refusal>
    ensures { outcome_of result ≡ first_check sizes (of_ratings ids.now ratings.now) waiting players qualities }
{
    if 64 < waiting {
        return Err(Refusal::OverLimit);
    }
    if sizes.is_over() {
        return Err(Refusal::OverLimit);
    }
    roster::check_ratings(ids, ratings)?;
    if crate::are_short(players, qualities) {
        return Err(Refusal::ShortSheet);
    }
    Ok(())
}

// Refusals 1, 2, 3 and 4 of what a search is given.
pub fn check(
    queue: Queue,
    sizes: TeamComposition,
    ids: &[u64],
    ratings: &[f64],
    players: usize,
    qualities: usize,
) -> Result<(), Refusal>
    ensures { outcome_of result ≡ search_check sizes (of_ratings ids.now ratings.now) (queue_of queue) players qualities }
{
    check_first(queue.len, sizes, ids, ratings, players, qualities)?;
    if queue.has_joined_over() {
        return Err(Refusal::Clock);
    }
    Ok(())
}
