// Searches and generators, exported. The matches stand on the lent sheets: players match by match, team A then B, and a quality
// for each match; what stands behind them is untouched.
ghost use Rattle.std.specs.Prelude.{◌≡◌};
ghost use Rattle.queue.specs.Queue.{queue_of};
ghost use Rattle.roster.specs.Roster.{of_ratings, of_deviations};
ghost use Rattle.base.specs.Refusals.{outcome_of};
ghost use Rattle.beam.specs.Beam.{beam_rule};
ghost use Rattle.greedy.specs.Greedy.{greedy_rule};
ghost use Rattle.candidate.specs.Exhaustive.{exhaustive_rule};
ghost use Rattle.candidate.specs.Nearest.{nearest_rule};
ghost use Rattle.capi.specs.Searches.{formed_numbers, sheets, SearchNumbers};

use base::Refusal;
use beam::BeamSearch;
use candidate::exhaustive::ExhaustiveGenerator;
use candidate::nearest::GreedyNearestGenerator;
use greedy::GreedySearch;
use objective::score::MatchObjective;
use queue::Queue;
use seating::TeamComposition;

// How many matches were handed out, 0 where it is refused.
#[repr(C)]
#[derive(Clone, Copy)]
pub struct Formed {
    pub count: usize,
    pub refusal: u8,
}

pub(crate) fn in_numbers(formed: Result<usize, Refusal>) -> Formed
    ensures { result ≡ formed_numbers (outcome_of formed) }
{
    match formed {
        Err(refusal) => Formed {
            count: 0,
            refusal: refusal.number(),
        },
        Ok(count) => Formed { count, refusal: 0 },
    }
}

pub fn yilgashe_search_greedy(
    queue: Queue,
    sizes: TeamComposition,
    ids: &[u64],
    ratings: &[f64],
    players: &mut [u64],
    qualities: &mut [f64],
) -> Formed
    ensures { SearchNumbers (greedy_rule sizes (of_ratings ids.now ratings.now) (queue_of queue) (sheets players.old qualities.old)) result players.new qualities.new }
{
    in_numbers(GreedySearch::search(queue, sizes, ids, ratings, players, qualities))
}

pub fn yilgashe_search_beam(
    search: BeamSearch,
    queue: Queue,
    sizes: TeamComposition,
    objective: MatchObjective,
    ids: &[u64],
    ratings: &[f64],
    deviations: &[f64],
    clock: u64,
    players: &mut [u64],
    qualities: &mut [f64],
) -> Formed
    ensures { SearchNumbers (beam_rule sizes search.width objective (of_deviations ids.now ratings.now deviations.now) (queue_of queue) clock (sheets players.old qualities.old)) result players.new qualities.new }
{
    in_numbers(search.search(
        queue, sizes, objective, ids, ratings, deviations, clock, players, qualities,
    ))
}

pub fn yilgashe_generate_nearest(
    generator: GreedyNearestGenerator,
    queue: Queue,
    sizes: TeamComposition,
    ids: &[u64],
    ratings: &[f64],
    players: &mut [u64],
    qualities: &mut [f64],
) -> Formed
    ensures { SearchNumbers (nearest_rule generator.max sizes (of_ratings ids.now ratings.now) (queue_of queue) (sheets players.old qualities.old)) result players.new qualities.new }
{
    in_numbers(generator.generate_candidates(queue, sizes, ids, ratings, players, qualities))
}

pub fn yilgashe_generate_exhaustive(
    queue: Queue,
    sizes: TeamComposition,
    players: &mut [u64],
    qualities: &mut [f64],
) -> Formed
    ensures { SearchNumbers (exhaustive_rule sizes (queue_of queue) (sheets players.old qualities.old)) result players.new qualities.new }
{
    in_numbers(ExhaustiveGenerator::generate_candidates(queue, sizes, players, qualities))
}
