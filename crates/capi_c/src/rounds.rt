// The exports of `capi::rounds`: each is the function of its name there, and promises what that promises.
ghost use Rattle.queue.specs.Queue.{queue_of};
ghost use Rattle.roster.specs.Roster.{of_rules};
ghost use Rattle.capi.specs.FullRounds.{ChoiceNumbers, choice_numbers};

use capi::rounds;
use capi::rounds::Chosen;
use capi::rules::Constraints;
use capi::scores::SoftObjectives;
use queue::Queue;
use seating::TeamComposition;

#[unsafe(no_mangle)]
pub extern "C" fn yilgashe_best_choice(
    queue: Queue,
    sizes: TeamComposition,
    constraints: Constraints,
    objectives: SoftObjectives,
    ids: &[u64],
    ratings: &[f64],
    parties: &[u64],
    roles: &[u32],
    regions: &[u8],
) -> Chosen
    ensures { ChoiceNumbers (choice_numbers (of_rules ids.now ratings.now parties.now roles.now regions.now) constraints objectives sizes (queue_of queue)) result }
{
    rounds::yilgashe_best_choice(
        queue,
        sizes,
        constraints,
        objectives,
        ids,
        ratings,
        parties,
        roles,
        regions,
    )
}
