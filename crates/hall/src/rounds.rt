// The greedy, the beam and the full round: a search or the best choice among those of the first bookings of an array that are of a game.
ghost use Rattle.std.specs.Prelude.{◌≡◌, ◌≤◌, length, take};
ghost use Rattle.base.specs.Floats as Floats;
ghost use Rattle.base.specs.Refusals.{Outcome, refused, guarded, refusal_number, outcome_of};
ghost use Rattle.roster.specs.Roster.{of_ratings, of_deviations, of_rules};
ghost use Rattle.choice.specs.Full.{terms, terms_check, choice_of};
ghost use Rattle.hall.specs.Rounds.{greedy, beam, full, selected};
ghost use Rattle.hall.specs.Steps.{sheets_and_clock_check, HandedNumbers, FoundNumbers};

use crate::{Booking, waiting};
use base::Refusal;
use beam::BeamSearch;
use choice::Choice;
use constraint::Constraints;
use greedy::GreedySearch;
use objective::score::MatchObjective;
use objective::soft::SoftObjective;
use seating::TeamComposition;

// What a round gives besides the hall: its matches, the places that they take on the players' sheet, and the choices that it tried.
// All are 0 where it is refused.
#[derive(Clone, Copy)]
pub struct Handed {
    pub count: usize,
    pub seats: usize,
    pub tried: u64,
    pub refusal: u8,
}

fn refuses(refusal: Refusal) -> Handed
    ensures { result ≡ record { count = 0; seats = 0; tried = 0; refusal = refusal_number refusal } }
{
    Handed {
        count: 0,
        seats: 0,
        tried: 0,
        refusal: refusal.number(),
    }
}

// ---- the greedy round

// The greedy search over those of the first n bookings that are of the game.
pub fn greedy_handed(
    bookings: [Booking; 64],
    n: usize,
    game: u8,
    sizes: TeamComposition,
    clock: u64,
    ids: &[u64],
    ratings: &[f64],
    players: &mut [u64],
    qualities: &mut [f64],
) -> Handed
    ensures { FoundNumbers (greedy (of_ratings ids.now ratings.now)) clock (record { players = players.entry.now; qualities = qualities.old }) sizes game (take n bookings) result players.exit.now qualities.new }
{
    let queue = waiting::eligible(bookings, n, game);
    if let Err(refusal) = seating::searching::check(
        queue,
        sizes,
        ids,
        ratings,
        players.len(),
        qualities.len(),
    ) {
        return refuses(refusal);
    }
    if queue::time::is_over(waiting::clock_among(bookings, n, clock)) {
        return refuses(Refusal::Clock);
    }
    let each = sizes.a + sizes.b;
    let formed = GreedySearch::search(queue, sizes, ids, ratings, players, qualities);
    match formed {
        Err(refusal) => refuses(refusal),
        Ok(count) => {
            let seats = count * each;
            Handed {
                count,
                seats,
                tried: 0,
                refusal: 0,
            }
        }
    }
}

// ---- the beam round

// The beam search over those of the first n bookings that are of the game.
pub fn beam_handed(
    bookings: [Booking; 64],
    n: usize,
    game: u8,
    search: BeamSearch,
    sizes: TeamComposition,
    objective: MatchObjective,
    clock: u64,
    ids: &[u64],
    ratings: &[f64],
    deviations: &[f64],
    players: &mut [u64],
    qualities: &mut [f64],
) -> Handed
    ensures { FoundNumbers (beam search.width objective (of_deviations ids.now ratings.now deviations.now)) clock (record { players = players.entry.now; qualities = qualities.old }) sizes game (take n bookings) result players.exit.now qualities.new }
{
    let queue = waiting::eligible(bookings, n, game);
    let formed = search.search(
        queue,
        sizes,
        objective,
        ids,
        ratings,
        deviations,
        waiting::clock_among(bookings, n, clock),
        players,
        qualities,
    );
    match formed {
        Err(refusal) => refuses(refusal),
        Ok(count) => {
            let seats = count * (sizes.a + sizes.b);
            Handed {
                count,
                seats,
                tried: 0,
                refusal: 0,
            }
        }
    }
}

// ---- the full round

// Refusal 3 of a full round, and 4 of its clock.
fn check_sheets_and_clock(clock: u64, players: usize, qualities: usize) -> Result<(), Refusal>
    ensures { outcome_of result ≡ sheets_and_clock_check clock players qualities }
{
    if seating::are_short(players, qualities) {
        return Err(Refusal::ShortSheet);
    }
    if queue::time::is_over(clock) {
        return Err(Refusal::Clock);
    }
    Ok(())
}

// The refusal of a full round that is refused anyway: that of its terms, or else the one behind it.
fn first_refusal(
    behind: Refusal,
    sizes: TeamComposition,
    constraints: Constraints,
    count: usize,
    ids: &[u64],
    ratings: &[f64],
    parties: &[u64],
    roles: &[u32],
    regions: &[u8],
) -> Refusal
    ensures { ◌≡◌ {A = Outcome Unit} (refused (refusal_number result)) (guarded (terms_check (of_rules ids.now ratings.now parties.now roles.now regions.now) constraints count sizes) (refused (refusal_number behind))) }
{
    if let Err(refusal) = choice::check_terms(
        sizes,
        constraints,
        count,
        ids,
        ratings,
        parties,
        roles,
        regions,
    ) {
        return refusal;
    }
    behind
}

// The choice on the sheets, if there is one.
fn choice_handed(
    choice: Result<Choice, Refusal>,
    players: &mut [u64],
    qualities: &mut [f64],
) -> Handed
    requires { (16 ≤ length players.old) × (1 ≤ length qualities.old) }
    ensures { HandedNumbers (λ m. Floats.zero) (record { players = players.entry.now; qualities = qualities.old }) (selected (choice_of choice)) result players.exit.now qualities.new }
{
    let chosen = match choice {
        Err(refusal) => return refuses(refusal),
        Ok(chosen) => chosen,
    };
    let Some(teams) = chosen.best else {
        return Handed {
            count: 0,
            seats: 0,
            tried: chosen.tried,
            refusal: 0,
        };
    };
    seating::write_match(teams, players);
    qualities[0] = 0.0;
    Handed {
        count: 1,
        seats: teams.seats(),
        tried: chosen.tried,
        refusal: 0,
    }
}

// The best choice of those of the first n bookings that are of the game.
pub fn full_handed(
    bookings: [Booking; 64],
    n: usize,
    game: u8,
    sizes: TeamComposition,
    constraints: Constraints,
    friends: bool,
    objectives: [SoftObjective; 8],
    count: usize,
    clock: u64,
    ids: &[u64],
    ratings: &[f64],
    parties: &[u64],
    roles: &[u32],
    regions: &[u8],
    players: &mut [u64],
    qualities: &mut [f64],
) -> Handed
    ensures { FoundNumbers (full (terms (of_rules ids.now ratings.now parties.now roles.now regions.now) constraints friends objectives count)) clock (record { players = players.entry.now; qualities = qualities.old }) sizes game (take n bookings) result players.exit.now qualities.new }
{
    // The choice has refusals 1 and 2 by itself. Only a round that is refused anyway looks for them before.
    let at = waiting::clock_among(bookings, n, clock);
    let checked = check_sheets_and_clock(at, players.len(), qualities.len());
    if let Err(behind) = checked {
        return refuses(first_refusal(
            behind,
            sizes,
            constraints,
            count,
            ids,
            ratings,
            parties,
            roles,
            regions,
        ));
    }
    let choice = choice::best_choice(
        waiting::eligible(bookings, n, game),
        sizes,
        constraints,
        friends,
        objectives,
        count,
        ids,
        ratings,
        parties,
        roles,
        regions,
    );
    choice_handed(choice, players, qualities)
}
