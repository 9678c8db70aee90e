// Greedy, beam and full rounds, and dispatches: the hall seats, and the desk says who sits where.
use crate::desk::Desk;
use crate::fields::Fields;
use crate::guests::Roster;
use crate::tables::Before;
use crate::words::Heard;
use crate::{commands, counts, fields, games, print, refusals, tables};
use beam::BeamSearch;
use capi::halls;
use capi::halls::{RoundRules, Rounded};
use capi::scores::SoftObjectives;
use hall::{Hall, waiting};
use objective::score::MatchObjective;
use seating::TeamComposition;

pub const TIMED: u32 = fields::AT;

pub const BEAM: u32 = TIMED
    | fields::WIDTH
    | fields::QUALITY
    | fields::WAIT
    | fields::PING
    | fields::UNCERTAINTY;

// Which round a line asks for.
#[derive(Clone, Copy)]
pub enum Round {
    Greedy,
    Beam,
    Full,
    Dispatch,
}

// The fields that it takes. The hall says which game a dispatch is for.
fn allowed(round: Round) -> u32 {
    match round {
        Round::Greedy => TIMED | fields::GAME,
        Round::Beam => BEAM | fields::GAME,
        Round::Full => TIMED | fields::GAME,
        Round::Dispatch => TIMED,
    }
}

// What a round or a search is asked for; the game is a round's, width and objective are a beam's.
#[derive(Clone, Copy)]
pub struct Asked {
    pub game: u8,
    pub clock: u64,
    pub width: usize,
    pub objective: MatchObjective,
    // False once a complaint was made.
    pub ok: bool,
}

impl Asked {
    pub fn of(given: Fields) -> Asked {
        Asked {
            game: commands::byte(given.whole(fields::GAME)),
            clock: given.whole(fields::AT),
            width: given.whole_or(fields::WIDTH, 8) as usize,
            objective: MatchObjective {
                quality: given.real_or(fields::QUALITY, 1.0),
                wait: given.real(fields::WAIT),
                ping: given.real(fields::PING),
                uncertainty: given.real(fields::UNCERTAINTY),
            },
            ok: given.ok,
        }
    }
}

// `greedy game 1 at 120s` and so on: of game 0 where none is given.
pub fn serve(desk: Desk, text: &[u8], heard: Heard, round: Round) -> Desk {
    if !games::is_open(desk.open, heard) {
        return desk;
    }
    let given = fields::read(text, heard, heard.behind(), TIMED, allowed(round));
    if !given.ok {
        return desk;
    }
    make(desk, round, Asked::of(given))
}

// Says what the round gives, and keeps its hall. One that is refused changes nothing.
fn make(desk: Desk, round: Round, asked: Asked) -> Desk {
    let mut players = [0u64; 64];
    let rounded = made(desk, round, asked, &mut players);
    if rounded.refusal != 0 {
        refusals::refused_by(rounded.refusal);
        return desk;
    }
    let game = game_of(round, asked.game, rounded.served);
    let hall = desk.hall;
    let sizes = hall.sizes;
    if !is_served(round, game, sizes) {
        return desk;
    }
    let next = seated(desk, rounded, game, asked.clock, &players);
    tell_tried(round, rounded.tried);
    next
}

fn made(desk: Desk, round: Round, asked: Asked, players: &mut [u64]) -> Rounded {
    let roster = desk.roster;
    let hall = desk.hall;
    let rules = desk.rules;
    let goals = desk.goals;
    let mut qualities = [0.0f64; 64];
    match round {
        Round::Greedy => greedy_over(roster, hall, asked, players),
        Round::Beam => beam_over(roster, hall, asked, players),
        Round::Full => full_over(
            roster,
            hall,
            asked.game,
            rules,
            goals,
            asked.clock,
            players,
            &mut qualities,
        ),
        Round::Dispatch => dispatch_over(roster, hall, asked.clock, players),
    }
}

// ---- the hall's calls

// The greedy round with the roster's columns lent.
fn greedy_over(roster: Roster, hall: Hall, asked: Asked, players: &mut [u64]) -> Rounded {
    let ids = roster.ids;
    let n = counts::wholes(roster.rows, &ids);
    let ratings = roster.ratings;
    let m = counts::reals(roster.rows, &ratings);
    let mut qualities = [0.0f64; 64];
    halls::yilgashe_hall_greedy_round(
        hall,
        asked.game,
        asked.clock,
        &ids[..n],
        &ratings[..m],
        players,
        &mut qualities,
    )
}

// The beam round with the roster's columns lent.
fn beam_over(roster: Roster, hall: Hall, asked: Asked, players: &mut [u64]) -> Rounded {
    let objective = asked.objective;
    let search = BeamSearch { width: asked.width };
    let ids = roster.ids;
    let n = counts::wholes(roster.rows, &ids);
    let ratings = roster.ratings;
    let m = counts::reals(roster.rows, &ratings);
    let deviations = roster.deviations;
    let k = counts::reals(roster.rows, &deviations);
    let mut qualities = [0.0f64; 64];
    halls::yilgashe_hall_beam_round(
        hall,
        search,
        asked.game,
        objective,
        asked.clock,
        &ids[..n],
        &ratings[..m],
        &deviations[..k],
        players,
        &mut qualities,
    )
}

// The full round with the roster's columns lent.
fn full_over(
    roster: Roster,
    hall: Hall,
    game: u8,
    rules: RoundRules,
    goals: SoftObjectives,
    clock: u64,
    players: &mut [u64],
    qualities: &mut [f64],
) -> Rounded {
    let ids = roster.ids;
    let n = counts::wholes(roster.rows, &ids);
    let ratings = roster.ratings;
    let m = counts::reals(roster.rows, &ratings);
    let parties = roster.parties;
    let k = counts::wholes(roster.rows, &parties);
    let roles = roster.roles;
    let l = counts::halves(roster.rows, &roles);
    let regions = roster.regions;
    let o = counts::bytes(roster.rows, &regions);
    halls::yilgashe_hall_full_round(
        hall,
        game,
        rules,
        goals,
        clock,
        &ids[..n],
        &ratings[..m],
        &parties[..k],
        &roles[..l],
        &regions[..o],
        players,
        qualities,
    )
}

// The dispatch with the roster's columns lent.
fn dispatch_over(roster: Roster, hall: Hall, clock: u64, players: &mut [u64]) -> Rounded {
    let ids = roster.ids;
    let n = counts::wholes(roster.rows, &ids);
    let ratings = roster.ratings;
    let m = counts::reals(roster.rows, &ratings);
    let mut qualities = [0.0f64; 64];
    halls::yilgashe_hall_dispatch(
        hall,
        clock,
        &ids[..n],
        &ratings[..m],
        players,
        &mut qualities,
    )
}

// ---- what is said of a round

// The game whose guests it seats.
fn game_of(round: Round, asked: u8, served: u8) -> u8 {
    match round {
        Round::Dispatch => served,
        _ => asked,
    }
}

// Says which game a dispatch served. Is there one? Every other round has its game.
fn is_served(round: Round, game: u8, sizes: [TeamComposition; 8]) -> bool {
    let Round::Dispatch = round else {
        return true;
    };
    if 7 < game {
        print::text(b"no game has enough guests waiting\n");
        return false;
    }
    print::text(b"served ");
    games::title(game, hall::games::sizes_of(sizes, game));
    print::text(b"\n");
    true
}

// The tables of the game, and the hall that the round leaves. The waits are of those who waited before the round.
fn seated(desk: Desk, rounded: Rounded, game: u8, clock: u64, players: &[u64]) -> Desk {
    let hall = desk.hall;
    let bookings = hall.bookings;
    let sizes = hall.sizes;
    let roster = desk.roster;
    let tally = desk.tally;
    let before = Before {
        waiting: waiting::eligible(bookings, hall.waiting, game),
        roster,
        clock,
    };
    let guests = tables::print(
        before,
        hall::games::sizes_of(sizes, game),
        rounded.count,
        players,
    );
    let next = desk.with_hall(rounded.hall);
    next.with_tally(tally.with_seated(game, guests))
}

// How many choices a full round tried.
fn tell_tried(round: Round, tried: u64) {
    let Round::Full = round else {
        return;
    };
    print::text(b"tried ");
    io::print_decimal(1, tried);
    if tried == 1 {
        print::text(b" choice\n");
    } else {
        print::text(b" choices\n");
    }
}
