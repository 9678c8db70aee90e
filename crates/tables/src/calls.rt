// The six calls of a hall, what each brings, and how it is made.
use crate::rosters;
use base::Refusal;
use beam::BeamSearch;
use capi::halls;
use capi::halls::{Keyed, Rounded};
use capi::scores::SoftObjectives;
use hall::{Booking, Hall};
use objective::score::MatchObjective;
use rosters::Roster;

pub const BOOKING: u8 = 0;

pub const WITHDRAWAL: u8 = 1;

pub const GREEDY: u8 = 2;

pub const BEAM: u8 = 3;

pub const FULL: u8 = 4;

pub const DISPATCH: u8 = 5;

// What is wrong with what a round brings: nothing, too few ratings, short sheets, or a weight that is NaN.
pub const SOUND: u8 = 0;

pub const FEW_RATINGS: u8 = 1;

pub const SHORT_SHEETS: u8 = 2;

pub const NO_WEIGHT: u8 = 3;

// One of the six kinds. `time` is a booking's joined time and a round's clock. A dispatch names no game.
#[derive(Clone, Copy)]
pub struct Call {
    pub kind: u8,
    pub key: u64,
    pub player: u64,
    pub rating_bits: u64,
    pub party: u64,
    pub role: u32,
    pub time: u64,
    pub game: u8,
    pub width: usize,
    pub fault: u8,
}

// What a call gives besides the hall and its sheets. Refusal 0 is none. Only a dispatch serves a game, and 255 is none.
#[derive(Clone, Copy)]
pub struct Answer {
    pub refusal: u8,
    pub matches: usize,
    pub tried: u64,
    pub served: u8,
}

#[derive(Clone, Copy)]
pub struct Made {
    pub hall: Hall,
    pub answer: Answer,
}

// ---- calls

// For game 0.
pub fn booking(key: u64, player: u64, rating: f64, joined: u64) -> Call {
    Call {
        kind: BOOKING,
        key,
        player,
        rating_bits: base::to_bits(rating),
        party: 0,
        role: 0,
        time: joined,
        game: 0,
        width: 0,
        fault: SOUND,
    }
}

pub fn withdrawal(key: u64, player: u64) -> Call {
    Call {
        kind: WITHDRAWAL,
        key,
        player,
        rating_bits: 0,
        party: 0,
        role: 0,
        time: 0,
        game: 0,
        width: 0,
        fault: SOUND,
    }
}

pub fn round(kind: u8, game: u8, width: usize, clock: u64, fault: u8) -> Call {
    Call {
        kind,
        key: 0,
        player: 0,
        rating_bits: 0,
        party: 0,
        role: 0,
        time: clock,
        game,
        width,
        fault,
    }
}

pub fn dispatch(clock: u64, fault: u8) -> Call {
    round(DISPATCH, 0, 0, clock, fault)
}

pub fn is_keyed(call: Call) -> bool {
    call.kind < GREEDY
}

// What a keyed call brings beside its key: a withdrawal just its guest.
pub fn booking_of(call: Call) -> Booking {
    Booking {
        player: call.player,
        joined: call.time,
        rating_bits: call.rating_bits,
        party: call.party,
        role: call.role,
        game: call.game,
    }
}

// The game whose guests a round seats.
pub fn game_of(call: Call, answer: Answer) -> u8 {
    if call.kind == DISPATCH {
        return answer.served;
    }
    call.game
}

// ---- answers

fn keyed(made: Keyed) -> Made {
    let hall = made.hall;
    Made {
        hall,
        answer: Answer {
            refusal: made.refusal,
            matches: 0,
            tried: 0,
            served: 255,
        },
    }
}

// What a search or a generator gives, which tries nothing.
pub fn formed(given: Result<usize, Refusal>) -> Answer {
    match given {
        Ok(matches) => Answer {
            refusal: 0,
            matches,
            tried: 0,
            served: 255,
        },
        Err(refusal) => Answer {
            refusal: refusal.number(),
            matches: 0,
            tried: 0,
            served: 255,
        },
    }
}

fn rounded(made: Rounded) -> Made {
    let hall = made.hall;
    Made {
        hall,
        answer: handed(made),
    }
}

// What a round gives besides its hall.
pub fn handed(made: Rounded) -> Answer {
    Answer {
        refusal: made.refusal,
        matches: made.count,
        tried: made.tried,
        served: made.served,
    }
}

// ---- making a call

fn book(hall: Hall, call: Call) -> Made {
    keyed(halls::yilgashe_hall_book(hall, call.key, booking_of(call)))
}

fn greedy(
    hall: Hall,
    call: Call,
    ids: &[u64; 128],
    ratings: &[f64],
    players: &mut [u64],
    qualities: &mut [f64],
) -> Made {
    rounded(halls::yilgashe_hall_greedy_round(
        hall, call.game, call.time, ids, ratings, players, qualities,
    ))
}

// The weight of quality and skill.
fn weight(call: Call) -> f64 {
    if call.fault == NO_WEIGHT {
        return rosters::nan();
    }
    1.0
}

fn beam(
    hall: Hall,
    call: Call,
    ids: &[u64; 128],
    ratings: &[f64],
    deviations: &[f64; 128],
    players: &mut [u64],
    qualities: &mut [f64],
) -> Made {
    let objective = MatchObjective {
        quality: weight(call),
        wait: 0.5,
        ping: 0.0,
        uncertainty: 0.2,
    };
    let search = BeamSearch { width: call.width };
    rounded(halls::yilgashe_hall_beam_round(
        hall, search, call.game, objective, call.time, ids, ratings, deviations, players, qualities,
    ))
}

fn wait_and_skill(weight: f64) -> SoftObjectives {
    SoftObjectives {
        kinds: [rosters::WAIT, rosters::SKILL, 0, 0, 0, 0, 0, 0],
        weights: [0.5, weight, 0.0, 0.0, 0.0, 0.0, 0.0, 0.0],
        len: 2,
    }
}

// By wait and skill. Where the width is odd, parties sit together; where four leaves 2 or 3 of it, friends who wait do.
fn full(
    hall: Hall,
    call: Call,
    ids: &[u64; 128],
    ratings: &[f64],
    parties: &[u64; 128],
    roles: &[u32; 128],
    regions: &[u8; 128],
    players: &mut [u64],
    qualities: &mut [f64],
) -> Made {
    let parties_sit = call.width % 2 == 1;
    let friends_sit = 1 < call.width % 4;
    rounded(halls::yilgashe_hall_full_round(
        hall,
        call.game,
        rosters::rules(parties_sit, friends_sit),
        wait_and_skill(weight(call)),
        call.time,
        ids,
        ratings,
        parties,
        roles,
        regions,
        players,
        qualities,
    ))
}

fn dispatched(
    hall: Hall,
    call: Call,
    ids: &[u64; 128],
    ratings: &[f64],
    players: &mut [u64],
    qualities: &mut [f64],
) -> Made {
    rounded(halls::yilgashe_hall_dispatch(hall, call.time, ids, ratings, players, qualities))
}

// A round by the roster's other columns. All are of no role and of no region.
fn round_by(
    hall: Hall,
    call: Call,
    roster: Roster,
    ratings: &[f64],
    players: &mut [u64],
    qualities: &mut [f64],
) -> Made {
    let ids = roster.ids;
    let deviations = roster.deviations;
    let parties = roster.parties;
    let roles = [0u32; 128];
    let regions = [4u8; 128];
    if call.kind == GREEDY {
        return greedy(hall, call, &ids, ratings, players, qualities);
    }
    if call.kind == DISPATCH {
        return dispatched(hall, call, &ids, ratings, players, qualities);
    }
    if call.kind == BEAM {
        return beam(hall, call, &ids, ratings, &deviations, players, qualities);
    }
    full(
        hall, call, &ids, ratings, &parties, &roles, &regions, players, qualities,
    )
}

// A round by the roster's ratings.
fn rated(
    hall: Hall,
    call: Call,
    roster: Roster,
    players: &mut [u64],
    qualities: &mut [f64],
) -> Made {
    let ratings = roster.ratings;
    round_by(hall, call, roster, &ratings, players, qualities)
}

// A round with the fault that it brings.
fn make_round(
    hall: Hall,
    call: Call,
    roster: Roster,
    players: &mut [u64; 64],
    qualities: &mut [f64; 64],
) -> Made {
    if call.fault == FEW_RATINGS {
        let few = [1000.0f64; 127];
        return round_by(hall, call, roster, &few, players, qualities);
    }
    if call.fault == SHORT_SHEETS {
        let mut short = [0u64; 63];
        return rated(hall, call, roster, &mut short, qualities);
    }
    rated(hall, call, roster, players, qualities)
}

pub fn make(
    hall: Hall,
    call: Call,
    roster: Roster,
    players: &mut [u64; 64],
    qualities: &mut [f64; 64],
) -> Made {
    if call.kind == BOOKING {
        return book(hall, call);
    }
    if call.kind == WITHDRAWAL {
        return keyed(halls::yilgashe_hall_withdraw(hall, call.key, call.player));
    }
    make_round(hall, call, roster, players, qualities)
}
