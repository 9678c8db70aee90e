// The hall's calls. Each gets the hall by value and hands out the hall as it leaves it, and its twin `.._in` changes a hall in place. The exports
// call the twins, since every function that takes a hall by value copies it once more.
ghost use Rattle.std.specs.Prelude.{◌≡◌};
ghost use Rattle.roster.specs.Roster.{of_ratings, of_deviations, of_rules};
ghost use Rattle.hall.specs.Hall.{hall_of, empty, book, withdraw, keyed_rule};
ghost use Rattle.hall.specs.Rounds.{greedy, beam, of_game, dispatch, calling, round_rule};
ghost use Rattle.capi.specs.Searches.{sheets};
ghost use Rattle.capi.specs.Halls.{turn_in, RoundNumbers, full_call, full_rule};

use crate::rules::Constraints;
use crate::scores::SoftObjectives;
use beam::BeamSearch;
use hall::{Booking, Hall, games, notes, rounds, waiting};
use objective::score::MatchObjective;
use seating::TeamComposition;

// Refusal 0: accepted.
#[repr(C)]
#[derive(Clone, Copy)]
pub struct Keyed {
    pub hall: Hall,
    pub refusal: u8,
}

// What the match of a round must meet: the constraints that are brought, and, where waiting friends are, that with each guest everyone is
// seated who waits with the party of an entry of that guest. Party 0 is none.
#[repr(C)]
#[derive(Clone, Copy)]
pub struct RoundRules {
    pub constraints: Constraints,
    pub waiting_friends: bool,
}

// The sizes of the eight games, 0 and 0 of one that is not used.
#[repr(C)]
#[derive(Clone, Copy)]
pub struct Games {
    pub sizes: [TeamComposition; 8],
}

// How many matches were handed out and how many choices were tried, 0 and 0 where it is refused; and the game that a dispatch served, 255
// where it served none, was refused, or is another round.
#[repr(C)]
#[derive(Clone, Copy)]
pub struct Rounded {
    pub hall: Hall,
    pub count: usize,
    pub tried: u64,
    pub served: u8,
    pub refusal: u8,
}

// What a round answers beside the hall: the fields of `Rounded`.
#[derive(Clone, Copy)]
pub struct RoundAnswer {
    pub count: usize,
    pub tried: u64,
    pub served: u8,
    pub refusal: u8,
}

// Nobody waits, no key is noted, and no game was served.
pub fn yilgashe_hall_empty(games: Games) -> Hall
    ensures { hall_of result ≡ empty games.sizes }
{
    let booking = Booking {
        player: 0,
        joined: 0,
        rating_bits: 0,
        party: 0,
        role: 0,
        game: 0,
    };
    let note = notes::booking_note(booking, 0);
    let sizes = games.sizes;
    Hall {
        bookings: [booking; 64],
        waiting: 0,
        keys: [0; 1024],
        notes: [note; 1024],
        noted: 0,
        sizes,
        served: 255,
    }
}

// ---- bookings and withdrawals

pub fn yilgashe_hall_book(hall: Hall, key: u64, booking: Booking) -> Keyed
    ensures { turn_in result ≡ keyed_rule (hall_of hall) key (book booking) }
{
    let mut out = hall;
    let refusal = book_in(&mut out, key, booking);
    Keyed { hall: out, refusal }
}

// The same over a hall that is changed in place.
pub fn book_in(out: &mut Hall, key: u64, booking: Booking) -> u8
    ensures { turn_in (record { hall = out.new; refusal = result }) ≡ keyed_rule (hall_of out.old) key (book booking) }
{
    let k = out.waiting;
    let n = out.noted;
    let sizes = out.sizes;
    if hall::is_over(k, n, sizes, out.served) {
        return 1;
    }
    let at = notes::place_of(&out.keys, n, key);
    if at < n {
        let note = out.notes[at];
        return notes::heard_booking(note, booking);
    }
    if 1024 <= n {
        return 8;
    }
    let bookings = out.bookings;
    let waits = waiting::waits(bookings, k, booking.player);
    let answer = hall::booking_answer(booking, waits, k);
    out.keys[n] = key;
    out.notes[n] = notes::booking_note(booking, answer);
    out.noted = n + 1;
    if answer == 0 {
        out.bookings[k] = booking;
        out.waiting = k + 1;
        return 0;
    }
    answer
}

pub fn yilgashe_hall_withdraw(hall: Hall, key: u64, player: u64) -> Keyed
    ensures { turn_in result ≡ keyed_rule (hall_of hall) key (withdraw player) }
{
    let mut out = hall;
    let refusal = withdraw_in(&mut out, key, player);
    Keyed { hall: out, refusal }
}

// The same over a hall that is changed in place.
pub fn withdraw_in(out: &mut Hall, key: u64, player: u64) -> u8
    ensures { turn_in (record { hall = out.new; refusal = result }) ≡ keyed_rule (hall_of out.old) key (withdraw player) }
{
    let k = out.waiting;
    let noted = out.noted;
    let sizes = out.sizes;
    if hall::is_over(k, noted, sizes, out.served) {
        return 1;
    }
    let at = notes::place_of(&out.keys, noted, key);
    if at < noted {
        let note = out.notes[at];
        return notes::heard_withdrawal(note, player);
    }
    if 1024 <= noted {
        return 8;
    }
    let bookings = out.bookings;
    let answer = hall::withdrawal_answer(waiting::waits(bookings, k, player));
    out.keys[noted] = key;
    out.notes[noted] = notes::withdrawal_note(player, answer);
    out.noted = noted + 1;
    let staying = waiting::without_first(bookings, k, player);
    let rest = staying.bookings;
    out.bookings = rest;
    out.waiting = staying.waiting;
    answer
}

// ---- rounds

// The places and the sizes of a hall that is lent. A value that a function hands out is known to be as long as its type says.
fn places_of(hall: &Hall) -> [Booking; 64]
    ensures { result ≡ hall.now.bookings }
{
    hall.bookings
}

fn games_of(hall: &Hall) -> [TeamComposition; 8]
    ensures { result ≡ hall.now.sizes }
{
    hall.sizes
}

pub fn yilgashe_hall_greedy_round(
    hall: Hall,
    game: u8,
    clock: u64,
    ids: &[u64],
    ratings: &[f64],
    players: &mut [u64],
    qualities: &mut [f64],
) -> Rounded
    ensures { RoundNumbers (round_rule (hall_of hall) (calling (of_game game (greedy (of_ratings ids.now ratings.now))) clock players.old qualities.old)) result players.new qualities.new }
{
    let mut out = hall;
    let answer = greedy_round_in(&mut out, game, clock, ids, ratings, players, qualities);
    Rounded {
        hall: out,
        count: answer.count,
        tried: answer.tried,
        served: answer.served,
        refusal: answer.refusal,
    }
}

// The same over a hall that is changed in place.
pub fn greedy_round_in(
    out: &mut Hall,
    game: u8,
    clock: u64,
    ids: &[u64],
    ratings: &[f64],
    players: &mut [u64],
    qualities: &mut [f64],
) -> RoundAnswer
    ensures { RoundNumbers (round_rule (hall_of out.old) (calling (of_game game (greedy (of_ratings ids.now ratings.now))) clock players.old qualities.old)) (record { hall = out.new; count = result.count; tried = result.tried; served = result.served; refusal = result.refusal }) players.new qualities.new }
{
    let n = out.waiting;
    let sizes = out.sizes;
    let refusal = hall::round_answer(game, hall::is_over(n, out.noted, sizes, out.served));
    if refusal != 0 {
        return RoundAnswer {
            count: 0,
            tried: 0,
            served: 255,
            refusal,
        };
    }
    let bookings = places_of(out);
    let handed = rounds::greedy_handed(
        bookings,
        n,
        game,
        games::sizes_of(sizes, game),
        clock,
        ids,
        ratings,
        players,
        qualities,
    );
    let staying = waiting::without_seated(bookings, n, players, handed.seats);
    let rest = staying.bookings;
    out.bookings = rest;
    out.waiting = staying.waiting;
    RoundAnswer {
        count: handed.count,
        tried: handed.tried,
        served: 255,
        refusal: handed.refusal,
    }
}

pub fn yilgashe_hall_beam_round(
    hall: Hall,
    search: BeamSearch,
    game: u8,
    objective: MatchObjective,
    clock: u64,
    ids: &[u64],
    ratings: &[f64],
    deviations: &[f64],
    players: &mut [u64],
    qualities: &mut [f64],
) -> Rounded
    ensures { RoundNumbers (round_rule (hall_of hall) (calling (of_game game (beam search.width objective (of_deviations ids.now ratings.now deviations.now))) clock players.old qualities.old)) result players.new qualities.new }
{
    let mut out = hall;
    let answer = beam_round_in(
        &mut out, search, game, objective, clock, ids, ratings, deviations, players, qualities,
    );
    Rounded {
        hall: out,
        count: answer.count,
        tried: answer.tried,
        served: answer.served,
        refusal: answer.refusal,
    }
}

// The same over a hall that is changed in place.
pub fn beam_round_in(
    out: &mut Hall,
    search: BeamSearch,
    game: u8,
    objective: MatchObjective,
    clock: u64,
    ids: &[u64],
    ratings: &[f64],
    deviations: &[f64],
    players: &mut [u64],
    qualities: &mut [f64],
) -> RoundAnswer
    ensures { RoundNumbers (round_rule (hall_of out.old) (calling (of_game game (beam search.width objective (of_deviations ids.now ratings.now deviations.now))) clock players.old qualities.old)) (record { hall = out.new; count = result.count; tried = result.tried; served = result.served; refusal = result.refusal }) players.new qualities.new }
{
    let n = out.waiting;
    let sizes = out.sizes;
    let refusal = hall::round_answer(game, hall::is_over(n, out.noted, sizes, out.served));
    if refusal != 0 {
        return RoundAnswer {
            count: 0,
            tried: 0,
            served: 255,
            refusal,
        };
    }
    let bookings = places_of(out);
    let handed = rounds::beam_handed(
        bookings,
        n,
        game,
        search,
        games::sizes_of(sizes, game),
        objective,
        clock,
        ids,
        ratings,
        deviations,
        players,
        qualities,
    );
    let staying = waiting::without_seated(bookings, n, players, handed.seats);
    let rest = staying.bookings;
    out.bookings = rest;
    out.waiting = staying.waiting;
    RoundAnswer {
        count: handed.count,
        tried: handed.tried,
        served: 255,
        refusal: handed.refusal,
    }
}

// A code that is no kind is refusal 1, before all others but 13, and changes nothing.
pub fn yilgashe_hall_full_round(
    hall: Hall,
    game: u8,
    rules: RoundRules,
    objectives: SoftObjectives,
    clock: u64,
    ids: &[u64],
    ratings: &[f64],
    parties: &[u64],
    roles: &[u32],
    regions: &[u8],
    players: &mut [u64],
    qualities: &mut [f64],
) -> Rounded
    ensures { RoundNumbers (full_rule (hall_of hall) game objectives (full_call game rules objectives clock (of_rules ids.now ratings.now parties.now roles.now regions.now) (sheets players.old qualities.old))) result players.new qualities.new }
{
    let mut out = hall;
    let answer = full_round_in(
        &mut out, game, rules, objectives, clock, ids, ratings, parties, roles, regions, players,
        qualities,
    );
    Rounded {
        hall: out,
        count: answer.count,
        tried: answer.tried,
        served: answer.served,
        refusal: answer.refusal,
    }
}

// The same over a hall that is changed in place.
pub fn full_round_in(
    out: &mut Hall,
    game: u8,
    rules: RoundRules,
    objectives: SoftObjectives,
    clock: u64,
    ids: &[u64],
    ratings: &[f64],
    parties: &[u64],
    roles: &[u32],
    regions: &[u8],
    players: &mut [u64],
    qualities: &mut [f64],
) -> RoundAnswer
    ensures { RoundNumbers (full_rule (hall_of out.old) game objectives (full_call game rules objectives clock (of_rules ids.now ratings.now parties.now roles.now regions.now) (sheets players.old qualities.old))) (record { hall = out.new; count = result.count; tried = result.tried; served = result.served; refusal = result.refusal }) players.new qualities.new }
{
    let n = out.waiting;
    let sizes = out.sizes;
    let refusal = hall::round_answer(game, hall::is_over(n, out.noted, sizes, out.served));
    if refusal != 0 {
        return RoundAnswer {
            count: 0,
            tried: 0,
            served: 255,
            refusal,
        };
    }
    if objectives.has_no_kind() {
        return RoundAnswer {
            count: 0,
            tried: 0,
            served: 255,
            refusal: 1,
        };
    }
    let bookings = places_of(out);
    let handed = rounds::full_handed(
        bookings,
        n,
        game,
        games::sizes_of(sizes, game),
        crate::rules::constraints_of(rules.constraints),
        rules.waiting_friends,
        objectives.objectives(),
        objectives.len,
        clock,
        ids,
        ratings,
        parties,
        roles,
        regions,
        players,
        qualities,
    );
    let staying = waiting::without_seated(bookings, n, players, handed.seats);
    let rest = staying.bookings;
    out.bookings = rest;
    out.waiting = staying.waiting;
    RoundAnswer {
        count: handed.count,
        tried: handed.tried,
        served: 255,
        refusal: handed.refusal,
    }
}

// A greedy round of the game whose turn it is. `served` names it.
pub fn yilgashe_hall_dispatch(
    hall: Hall,
    clock: u64,
    ids: &[u64],
    ratings: &[f64],
    players: &mut [u64],
    qualities: &mut [f64],
) -> Rounded
    ensures { RoundNumbers (round_rule (hall_of hall) (calling (dispatch (of_ratings ids.now ratings.now)) clock players.old qualities.old)) result players.new qualities.new }
{
    let mut out = hall;
    let answer = dispatch_in(&mut out, clock, ids, ratings, players, qualities);
    Rounded {
        hall: out,
        count: answer.count,
        tried: answer.tried,
        served: answer.served,
        refusal: answer.refusal,
    }
}

// The same over a hall that is changed in place.
pub fn dispatch_in(
    out: &mut Hall,
    clock: u64,
    ids: &[u64],
    ratings: &[f64],
    players: &mut [u64],
    qualities: &mut [f64],
) -> RoundAnswer
    ensures { RoundNumbers (round_rule (hall_of out.old) (calling (dispatch (of_ratings ids.now ratings.now)) clock players.old qualities.old)) (record { hall = out.new; count = result.count; tried = result.tried; served = result.served; refusal = result.refusal }) players.new qualities.new }
{
    let n = out.waiting;
    let sizes = games_of(out);
    let last = out.served;
    if hall::is_over(n, out.noted, sizes, last) {
        return RoundAnswer {
            count: 0,
            tried: 0,
            served: 255,
            refusal: 1,
        };
    }
    let bookings = places_of(out);
    let game = games::next(bookings, n, sizes, last);
    let handed = rounds::greedy_handed(
        bookings,
        n,
        game,
        games::sizes_of(sizes, game),
        clock,
        ids,
        ratings,
        players,
        qualities,
    );
    let staying = waiting::without_seated(bookings, n, players, handed.seats);
    let served = games::served(game, handed.refusal);
    let rest = staying.bookings;
    out.bookings = rest;
    out.waiting = staying.waiting;
    out.served = games::last_served(last, served);
    RoundAnswer {
        count: handed.count,
        tried: handed.tried,
        served,
        refusal: handed.refusal,
    }
}
