// The exports of `capi::searches`: each is the function of its name there, and promises what that promises.
ghost use Rattle.queue.specs.Queue.{queue_of};
ghost use Rattle.roster.specs.Roster.{of_ratings, of_deviations};
ghost use Rattle.beam.specs.Beam.{beam_rule};
ghost use Rattle.greedy.specs.Greedy.{greedy_rule};
ghost use Rattle.candidate.specs.Exhaustive.{exhaustive_rule};
ghost use Rattle.candidate.specs.Nearest.{nearest_rule};
ghost use Rattle.capi.specs.Searches.{sheets, SearchNumbers};

use beam::BeamSearch;
use candidate::nearest::GreedyNearestGenerator;
use capi::searches;
use capi::searches::Formed;
use objective::score::MatchObjective;
use queue::Queue;
use seating::TeamComposition;

#[unsafe(no_mangle)]
pub extern "C" fn yilgashe_search_greedy(
    queue: Queue,
    sizes: TeamComposition,
    ids: &[u64],
    ratings: &[f64],
    players: &mut [u64],
    qualities: &mut [f64],
) -> Formed
    ensures { SearchNumbers (greedy_rule sizes (of_ratings ids.now ratings.now) (queue_of queue) (sheets players.old qualities.old)) result players.new qualities.new }
{
    searches::yilgashe_search_greedy(queue, sizes, ids, ratings, players, qualities)
}

#[unsafe(no_mangle)]
pub extern "C" fn yilgashe_search_beam(
    search: BeamSearch,
    queue: Queue,
    sizes: TeamComposition,
    objective: MatchObjective,
    ids: &[u64],
    ratings: &[f64],
    deviations: &[f64],
    clock: u64,
    players: &mut [u64],
    qualities: &mut [f64],
) -> Formed
    ensures { SearchNumbers (beam_rule sizes search.width objective (of_deviations ids.now ratings.now deviations.now) (queue_of queue) clock (sheets players.old qualities.old)) result players.new qualities.new }
{
    searches::yilgashe_search_beam(
        search, queue, sizes, objective, ids, ratings, deviations, clock, players, qualities,
    )
}

#[unsafe(no_mangle)]
pub extern "C" fn yilgashe_generate_nearest(
    generator: GreedyNearestGenerator,
    queue: Queue,
    sizes: TeamComposition,
    ids: &[u64],
    ratings: &[f64],
    players: &mut [u64],
    qualities: &mut [f64],
) -> Formed
    ensures { SearchNumbers (nearest_rule generator.max sizes (of_ratings ids.now ratings.now) (queue_of queue) (sheets players.old qualities.old)) result players.new qualities.new }
{
    searches::yilgashe_generate_nearest(generator, queue, sizes, ids, ratings, players, qualities)
}

#[unsafe(no_mangle)]
pub extern "C" fn yilgashe_generate_exhaustive(
    queue: Queue,
    sizes: TeamComposition,
    players: &mut [u64],
    qualities: &mut [f64],
) -> Formed
    ensures { SearchNumbers (exhaustive_rule sizes (queue_of queue) (sheets players.old qualities.old)) result players.new qualities.new }
{
    searches::yilgashe_generate_exhaustive(queue, sizes, players, qualities)
}
