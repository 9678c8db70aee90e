// The best choice of a full round, exported.
ghost use Rattle.std.specs.Prelude.{◌≡◌, false, []};
ghost use Rattle.queue.specs.Queue.{queue_of};
ghost use Rattle.roster.specs.Roster.{of_rules};
ghost use Rattle.matchmaker.specs.Quality.{match_of};
ghost use Rattle.seating.specs.Seating.{lineup};
ghost use Rattle.choice.specs.Full.{choice_of};
ghost use Rattle.capi.specs.FullRounds.{ChoiceNumbers, choice_numbers};

use crate::rules::Constraints;
use crate::scores::SoftObjectives;
use base::Refusal;
use choice::Choice;
use matchmaker::ProposedMatch;
use queue::Queue;
use seating::TeamComposition;

// The teams are the match where one was found, else nobody; what stands in a team's array behind its players counts for nothing.
// Nothing is tried where it is refused.
#[repr(C)]
#[derive(Clone, Copy)]
pub struct Chosen {
    pub teams: ProposedMatch,
    pub tried: u64,
    pub found: bool,
    pub refusal: u8,
}

// No match, after so many choices, or for a refusal.
fn unfound(tried: u64, refusal: u8) -> Chosen
    ensures { (match_of result.teams ≡ lineup [] []) × ((result.tried ≡ tried) × ((result.found ≡ false) × (result.refusal ≡ refusal))) }
{
    let none = seating::nobody();
    Chosen {
        teams: none,
        tried,
        found: false,
        refusal,
    }
}

fn in_numbers(choice: Result<Choice, Refusal>) -> Chosen
    ensures { ChoiceNumbers (choice_of choice) result }
{
    let chosen = match choice {
        Err(refusal) => return unfound(0, refusal.number()),
        Ok(chosen) => chosen,
    };
    let Some(teams) = chosen.best else {
        return unfound(chosen.tried, 0);
    };
    Chosen {
        teams,
        tried: chosen.tried,
        found: true,
        refusal: 0,
    }
}

pub fn yilgashe_best_choice(
    queue: Queue,
    sizes: TeamComposition,
    constraints: Constraints,
    objectives: SoftObjectives,
    ids: &[u64],
    ratings: &[f64],
    parties: &[u64],
    roles: &[u32],
    regions: &[u8],
) -> Chosen
    ensures { ChoiceNumbers (choice_numbers (of_rules ids.now ratings.now parties.now roles.now regions.now) constraints objectives sizes (queue_of queue)) result }
{
    if objectives.has_no_kind() {
        return unfound(0, 1);
    }
    let all = crate::rules::constraints_of(constraints);
    let softs = objectives.objectives();
    let n = objectives.len;
    in_numbers(choice::best_choice(
        queue, sizes, all, false, softs, n, ids, ratings, parties, roles, regions,
    ))
}
