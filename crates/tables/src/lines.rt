// The lines of document 01's "At the table", and those of document 02's friends who stayed at home (2.3).
use crate::{calls, rosters, story, text};
use beam::BeamSearch;
use calls::Call;
use candidate::exhaustive::ExhaustiveGenerator;
use capi::halls;
use capi::halls::RoundRules;
use capi::scores::SoftObjectives;
use greedy::GreedySearch;
use hall::{Booking, Hall};
use matchmaker::{ProposedMatch, Team};
use objective::pareto::MatchObjectiveVector;
use objective::score::MatchObjective;
use queue::{Queue, QueueEntry};
use seating::TeamComposition;

pub fn all() {
    greedy(2, 2);
    exhaustive(4, 2, 2);
    exhaustive(3, 1, 1);
    full_round();
    differences();
    reference(b"", 0);
    reference(b" who joined earlier", 5);
    greedy(0, 1);
    beam(0, 1, 1);
    beam(0, 1, 0);
    bookings();
    every_pair(20);
    every_pair(21);
    clock(9007199254740992);
    clock(9007199254740993);
    vectors();
    friends();
}

// ---- the table's guests

fn entry(player: u64, rating: f64) -> QueueEntry {
    QueueEntry {
        player,
        joined: 0,
        rating,
        party: 0,
        role: 0,
    }
}

// The first n of guests 1 to 4.
fn guests(n: usize) -> Queue {
    let mut entries = [entry(1, 1000.0); 64];
    entries[1] = entry(2, 1280.0);
    entries[2] = entry(3, 1010.0);
    entries[3] = entry(4, 1090.0);
    Queue { entries, len: n }
}

// ---- searches and listings

fn title(words: &[u8], a: usize, b: usize) {
    text::say(words);
    text::sizes(a, b);
    text::say(b": ");
}

fn greedy(a: usize, b: usize) {
    let ids = [1u64, 2, 3, 4];
    let ratings = [1000.0f64, 1280.0, 1010.0, 1090.0];
    let mut players = [0u64; 64];
    let mut qualities = [0.0f64; 64];
    let sizes = TeamComposition { a: a, b: b };
    let given = GreedySearch::search(
        guests(4),
        sizes,
        &ids,
        &ratings,
        &mut players,
        &mut qualities,
    );
    let answer = calls::formed(given);
    title(b"greedy ", a, b);
    text::handed(answer, &players, a, b);
    if answer.matches != 0 {
        text::say(b", quality ");
        text::quality(qualities[0]);
    }
    text::say(b"\n");
}

fn by_quality() -> MatchObjective {
    MatchObjective {
        quality: 1.0,
        wait: 0.0,
        ping: 0.0,
        uncertainty: 0.0,
    }
}

fn beam_at(clock: u64, width: usize, a: usize, b: usize) {
    let ids = [1u64, 2, 3, 4];
    let ratings = [1000.0f64, 1280.0, 1010.0, 1090.0];
    let deviations = [50.0f64; 4];
    let mut players = [0u64; 64];
    let mut qualities = [0.0f64; 64];
    let sizes = TeamComposition { a: a, b: b };
    let search = BeamSearch { width: width };
    let given = search.search(
        guests(4),
        sizes,
        by_quality(),
        &ids,
        &ratings,
        &deviations,
        clock,
        &mut players,
        &mut qualities,
    );
    text::handed(calls::formed(given), &players, a, b);
    text::say(b"\n");
}

fn beam(width: usize, a: usize, b: usize) {
    text::say(b"beam width ");
    text::number(width as u64);
    title(b", ", a, b);
    beam_at(0, width, a, b);
}

fn exhaustive(n: usize, a: usize, b: usize) {
    let mut players = [0u64; 64];
    let mut qualities = [0.0f64; 64];
    let sizes = TeamComposition { a: a, b: b };
    let given = ExhaustiveGenerator::generate_candidates(
        guests(n),
        sizes,
        &mut players,
        &mut qualities,
    );
    text::say(b"exhaustive of ");
    text::number(n as u64);
    title(b", ", a, b);
    text::handed(calls::formed(given), &players, a, b);
    text::say(b"\n");
}

// Reference 1000, entries 1010 then 990, of which the first joined at this time and the other at 0.
fn reference(words: &[u8], joined: u64) {
    let ids = [1u64, 2, 3];
    let ratings = [1000.0f64, 1010.0, 990.0];
    let mut players = [0u64; 64];
    let mut qualities = [0.0f64; 64];
    let sizes = TeamComposition { a: 1, b: 1 };
    let mut queue = guests(3);
    let mut second = entry(2, 1010.0);
    second.joined = joined;
    queue.entries[1] = second;
    queue.entries[2] = entry(3, 990.0);
    let given = GreedySearch::search(queue, sizes, &ids, &ratings, &mut players, &mut qualities);
    text::say(b"reference 1000, guest 2 of 1010 before guest 3 of 990");
    text::say(words);
    text::say(b": ");
    text::handed(calls::formed(given), &players, 1, 1);
    text::say(b"\n");
}

// ---- quality and vectors

fn team(player: u64) -> Team {
    let mut players = [0u64; 8];
    players[0] = player;
    Team { players, len: 1 }
}

// The quality of 1000 against another rating.
fn difference(words: &[u8], rating: f64) {
    let ids = [1u64, 2];
    let ratings = [1000.0f64, rating];
    let proposed = ProposedMatch {
        a: team(1),
        b: team(2),
    };
    text::say(words);
    let quality = proposed.match_quality(&ids, &ratings);
    match quality {
        Ok(x) => text::quality(x),
        Err(refusal) => text::refusal(refusal.number()),
    }
}

fn differences() {
    difference(b"difference 0: ", 1000.0);
    difference(b", 100: ", 1100.0);
    difference(b", 400: ", 600.0);
    difference(b", NaN: ", rosters::nan());
    text::say(b"\n");
}

fn vectors() {
    let mut vector = MatchObjectiveVector::default();
    vector.skill = 0.5;
    text::say(b"equal vectors: ");
    if vector.dominates(vector) {
        text::say(b"one dominates\n");
    } else {
        text::say(b"none dominates\n");
    }
}

// ---- the hall

// The hall after one call, which is written with its answer.
pub fn told(hall: Hall, call: Call) -> Hall {
    let mut players = [0u64; 64];
    let mut qualities = [0.0f64; 64];
    let made = calls::make(hall, call, rosters::guests(), &mut players, &mut qualities);
    let after = made.hall;
    story::tell(call, false, made.answer, &players, after);
    after
}

// The same behind words on what is tried.
pub fn told_as(words: &[u8], hall: Hall, call: Call) -> Hall {
    text::say(words);
    text::say(b": ");
    told(hall, call)
}

// Each of the later calls meets the hall that the first one left.
fn bookings() {
    let hall = told(
        halls::yilgashe_hall_empty(story::games()),
        calls::booking(7, 1, 1000.0, 0),
    );
    told(hall, calls::booking(7, 1, 1000.0, 0));
    told(hall, calls::booking(7, 2, 1280.0, 0));
    told(hall, calls::booking(8, 1, 1000.0, 0));
}

fn booked(player: u64, rating: f64, party: u64) -> Booking {
    Booking {
        player,
        joined: 0,
        rating_bits: base::to_bits(rating),
        party,
        role: 0,
        game: 0,
    }
}

// A hall where guests 1, 2 and 3 wait for game 0, which is 1+1, the first two of them with this party.
pub fn three_waiting(party: u64) -> Hall {
    let mut hall = halls::yilgashe_hall_empty(story::games());
    hall.bookings[0] = booked(1, 1000.0, party);
    hall.bookings[1] = booked(2, 1280.0, party);
    hall.bookings[2] = booked(3, 1010.0, 0);
    hall.waiting = 3;
    hall
}

// The wait objective, with weight 1.0.
fn by_wait() -> SoftObjectives {
    SoftObjectives {
        kinds: [rosters::WAIT; 8],
        weights: [1.0; 8],
        len: 1,
    }
}

// The full round of game 0 by the wait objective only. The roster has guests 1 to 4, with these parties.
fn full_over(hall: Hall, rules: RoundRules, parties: &[u64; 4]) {
    let ids = [1u64, 2, 3, 4];
    let ratings = [1000.0f64, 1280.0, 1010.0, 1090.0];
    let roles = [0u32; 4];
    let regions = [4u8; 4];
    let mut players = [0u64; 64];
    let mut qualities = [0.0f64; 64];
    let rounded = halls::yilgashe_hall_full_round(
        hall,
        0,
        rules,
        by_wait(),
        0,
        &ids,
        &ratings,
        parties,
        &roles,
        &regions,
        &mut players,
        &mut qualities,
    );
    text::handed(calls::handed(rounded), &players, 1, 1);
    text::say(b", tried ");
    text::number(rounded.tried);
    text::say(b"\n");
}

fn full_round() {
    let parties = [0u64; 4];
    text::say(b"full round of 3, 1+1: ");
    full_over(three_waiting(0), rosters::rules(false, false), &parties);
}

// Guests 1, 2 and 4 are party 5 of the roster, and guest 4 stayed at home. The others of it wait with this party.
fn friends_by(words: &[u8], party: u64, rules: RoundRules) {
    let parties = [5u64, 5, 0, 5];
    text::say(b"full round of 3, 1+1, friend 4 of 1 and 2 at home, ");
    text::say(words);
    text::say(b": ");
    full_over(three_waiting(party), rules, &parties);
}

fn friends() {
    friends_by(b"no rule", 5, rosters::rules(false, false));
    friends_by(b"parties", 5, rosters::rules(true, false));
    friends_by(b"waiting friends", 5, rosters::rules(false, true));
    friends_by(b"both", 5, rosters::rules(true, true));
    friends_by(
        b"booked without a party, waiting friends",
        0,
        rosters::rules(false, true),
    );
}

// ---- limits

// The guest who waits at a place: guests 1, 2, 3 and so on.
fn guest(place: usize) -> QueueEntry {
    entry(std::num::wrapping_add_u64(place as u64, 1), 1000.0)
}

// The first `len` guests.
fn waiting(len: usize) -> Queue {
    let mut entries = [guest(0); 64];
    for i in 0..64 {
        entries[i] = guest(i);
    }
    Queue { entries, len }
}

// The exhaustive listing 1+1 of so many guests.
fn every_pair(guests: usize) {
    let mut players = [0u64; 400];
    let mut qualities = [0.0f64; 200];
    let sizes = TeamComposition { a: 1, b: 1 };
    let given = ExhaustiveGenerator::generate_candidates(
        waiting(guests),
        sizes,
        &mut players,
        &mut qualities,
    );
    text::say(b"exhaustive of ");
    text::number(guests as u64);
    text::say(b", 1+1: ");
    text::count(calls::formed(given));
    text::say(b"\n");
}

// A search and a round at this clock, and a booking of this joined time.
fn clock(nanos: u64) {
    text::say(b"clock ");
    text::number(nanos);
    text::say(b", beam width 1, 1+1: ");
    beam_at(nanos, 1, 1, 1);
    told(
        three_waiting(0),
        calls::round(calls::GREEDY, 0, 0, nanos, calls::SOUND),
    );
    told(
        halls::yilgashe_hall_empty(story::games()),
        calls::booking(1, 1, 1000.0, nanos),
    );
}
