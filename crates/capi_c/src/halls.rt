// The exports of `capi::halls`: each is the function of its name there, and promises what that promises.
ghost use Rattle.std.specs.Prelude.{◌≡◌};
ghost use Rattle.roster.specs.Roster.{of_ratings, of_deviations, of_rules};
ghost use Rattle.hall.specs.Hall.{hall_of, empty, book, withdraw, keyed_rule};
ghost use Rattle.hall.specs.Rounds.{greedy, beam, of_game, dispatch, calling, round_rule};
ghost use Rattle.capi.specs.Searches.{sheets};
ghost use Rattle.capi.specs.Halls.{turn_in, RoundNumbers, full_call, full_rule};

use beam::BeamSearch;
use capi::halls;
use capi::halls::{Games, Keyed, RoundRules, Rounded};
use capi::scores::SoftObjectives;
use hall::{Booking, Hall, games};
use objective::score::MatchObjective;

#[unsafe(no_mangle)]
pub extern "C" fn yilgashe_hall_empty(games: Games) -> Hall
    ensures { hall_of result ≡ empty games.sizes }
{
    halls::yilgashe_hall_empty(games)
}

#[unsafe(no_mangle)]
pub extern "C" fn yilgashe_hall_book(hall: Hall, key: u64, booking: Booking) -> Keyed
    ensures { turn_in result ≡ keyed_rule (hall_of hall) key (book booking) }
{
    let mut out = hall;
    let refusal = halls::book_in(&mut out, key, booking);
    Keyed { hall: out, refusal }
}

#[unsafe(no_mangle)]
pub extern "C" fn yilgashe_hall_withdraw(hall: Hall, key: u64, player: u64) -> Keyed
    ensures { turn_in result ≡ keyed_rule (hall_of hall) key (withdraw player) }
{
    let mut out = hall;
    let refusal = halls::withdraw_in(&mut out, key, player);
    Keyed { hall: out, refusal }
}

#[unsafe(no_mangle)]
pub extern "C" fn yilgashe_hall_greedy_round(
    hall: Hall,
    game: u8,
    clock: u64,
    ids: &[u64],
    ratings: &[f64],
    players: &mut [u64],
    qualities: &mut [f64],
) -> Rounded
    ensures { RoundNumbers (round_rule (hall_of hall) (calling (of_game game (greedy (of_ratings ids.now ratings.now))) clock players.old qualities.old)) result players.new qualities.new }
{
    let mut out = hall;
    let answer = halls::greedy_round_in(&mut out, game, clock, ids, ratings, players, qualities);
    Rounded {
        hall: out,
        count: answer.count,
        tried: answer.tried,
        served: answer.served,
        refusal: answer.refusal,
    }
}

#[unsafe(no_mangle)]
pub extern "C" fn yilgashe_hall_beam_round(
    hall: Hall,
    search: BeamSearch,
    game: u8,
    objective: MatchObjective,
    clock: u64,
    ids: &[u64],
    ratings: &[f64],
    deviations: &[f64],
    players: &mut [u64],
    qualities: &mut [f64],
) -> Rounded
    ensures { RoundNumbers (round_rule (hall_of hall) (calling (of_game game (beam search.width objective (of_deviations ids.now ratings.now deviations.now))) clock players.old qualities.old)) result players.new qualities.new }
{
    let mut out = hall;
    let answer = halls::beam_round_in(
        &mut out, search, game, objective, clock, ids, ratings, deviations, players, qualities,
    );
    Rounded {
        hall: out,
        count: answer.count,
        tried: answer.tried,
        served: answer.served,
        refusal: answer.refusal,
    }
}

#[unsafe(no_mangle)]
pub extern "C" fn yilgashe_hall_full_round(
    hall: Hall,
    game: u8,
    rules: RoundRules,
    objectives: SoftObjectives,
    clock: u64,
    ids: &[u64],
    ratings: &[f64],
    parties: &[u64],
    roles: &[u32],
    regions: &[u8],
    players: &mut [u64],
    qualities: &mut [f64],
) -> Rounded
    ensures { RoundNumbers (full_rule (hall_of hall) game objectives (full_call game rules objectives clock (of_rules ids.now ratings.now parties.now roles.now regions.now) (sheets players.old qualities.old))) result players.new qualities.new }
{
    let mut out = hall;
    let answer = halls::full_round_in(
        &mut out, game, rules, objectives, clock, ids, ratings, parties, roles, regions, players,
        qualities,
    );
    Rounded {
        hall: out,
        count: answer.count,
        tried: answer.tried,
        served: answer.served,
        refusal: answer.refusal,
    }
}

#[unsafe(no_mangle)]
pub extern "C" fn yilgashe_hall_dispatch(
    hall: Hall,
    clock: u64,
    ids: &[u64],
    ratings: &[f64],
    players: &mut [u64],
    qualities: &mut [f64],
) -> Rounded
    ensures { RoundNumbers (round_rule (hall_of hall) (calling (dispatch (of_ratings ids.now ratings.now)) clock players.old qualities.old)) result players.new qualities.new }
{
    let mut out = hall;
    let answer = halls::dispatch_in(&mut out, clock, ids, ratings, players, qualities);
    Rounded {
        hall: out,
        count: answer.count,
        tried: answer.tried,
        served: answer.served,
        refusal: answer.refusal,
    }
}
