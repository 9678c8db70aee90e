// What is checked of each call and of each list.
use crate::calls;
use calls::Answer;
use hall::{Booking, Hall, Note};
use seating::TeamComposition;

// What a place for a guest holds before a round; no guest has this number.
pub const BLANK: u64 = 999999;

// ---- answers and sheets

pub fn are_same(x: Answer, y: Answer) -> bool {
    if x.refusal != y.refusal || x.served != y.served {
        return false;
    }
    x.matches == y.matches && x.tried == y.tried
}

// Compared bit for bit, but NaNs are equal and both zeros are equal.
pub fn is_same_float(x: f64, y: f64) -> bool {
    if x != x {
        return y != y;
    }
    x == y
}

pub fn are_same_players(x: &[u64; 64], y: &[u64; 64]) -> bool {
    for i in 0..64 {
        if x[i] != y[i] {
            return false;
        }
    }
    true
}

pub fn are_same_qualities(x: &[f64; 64], y: &[f64; 64]) -> bool {
    for i in 0..64 {
        if !is_same_float(x[i], y[i]) {
            return false;
        }
    }
    true
}

// ---- halls

// In every field, the rating by its bits.
pub fn is_same_booking(x: Booking, y: Booking) -> bool {
    if x.player != y.player || x.joined != y.joined || x.game != y.game {
        return false;
    }
    x.rating_bits == y.rating_bits && x.party == y.party && x.role == y.role
}

// The first n bookings.
fn are_same_bookings(x: [Booking; 64], y: [Booking; 64], n: usize) -> bool {
    for i in 0..64 {
        if i < n && !is_same_booking(x[i], y[i]) {
            return false;
        }
    }
    true
}

// The first n keys.
fn are_same_keys(x: &[u64; 1024], y: &[u64; 1024], n: usize) -> bool {
    for i in 0..1024 {
        if i < n && x[i] != y[i] {
            return false;
        }
    }
    true
}

fn booking_in(note: Note) -> Booking {
    Booking {
        player: note.player,
        joined: note.joined,
        rating_bits: note.rating_bits,
        party: note.party,
        role: note.role,
        game: note.game,
    }
}

fn is_same_note(x: Note, y: Note) -> bool {
    if x.kind != y.kind || x.answer != y.answer {
        return false;
    }
    is_same_booking(booking_in(x), booking_in(y))
}

// The first n notes.
fn are_same_notes(x: [Note; 1024], y: [Note; 1024], n: usize) -> bool {
    for i in 0..1024 {
        if i < n && !is_same_note(x[i], y[i]) {
            return false;
        }
    }
    true
}

fn is_same_log(x: Hall, y: Hall) -> bool {
    let keys = x.keys;
    let other_keys = y.keys;
    if !are_same_keys(&keys, &other_keys, x.noted) {
        return false;
    }
    let notes = x.notes;
    let other_notes = y.notes;
    are_same_notes(notes, other_notes, x.noted)
}

fn are_same_sizes(x: [TeamComposition; 8], y: [TeamComposition; 8]) -> bool {
    for i in 0..8 {
        let own = x[i];
        let other = y[i];
        if own.a != other.a || own.b != other.b {
            return false;
        }
    }
    true
}

fn are_same_games(x: Hall, y: Hall) -> bool {
    let sizes = x.sizes;
    let other_sizes = y.sizes;
    x.served == y.served && are_same_sizes(sizes, other_sizes)
}

pub fn is_same_hall(x: Hall, y: Hall) -> bool {
    if x.waiting != y.waiting || x.noted != y.noted || !are_same_games(x, y) {
        return false;
    }
    let bookings = x.bookings;
    let other = y.bookings;
    if !are_same_bookings(bookings, other, x.waiting) {
        return false;
    }
    is_same_log(x, y)
}

// ---- seats

// The seats of so many matches.
pub fn seats(matches: usize, each: usize) -> usize {
    let mut seats: usize = 0;
    for i in 0..matches {
        seats = std::num::wrapping_add_usize(seats, each);
    }
    seats
}

// How many places of the sheet are written.
pub fn written(players: &[u64; 64]) -> u64 {
    let mut n: u64 = 0;
    for i in 0..64 {
        if players[i] != BLANK {
            n = std::num::wrapping_add_u64(n, 1);
        }
    }
    n
}

// Does the player sit at one of the first n places?
fn sits(players: &[u64; 64], n: usize, player: u64) -> bool {
    for i in 0..64 {
        if i < n && players[i] == player {
            return true;
        }
    }
    false
}

// Does the player wait for the game?
fn waits_for(before: Hall, player: u64, game: u8) -> bool {
    let bookings = before.bookings;
    let n = before.waiting;
    for i in 0..64 {
        let booking = bookings[i];
        if i < n && booking.player == player {
            return booking.game == game;
        }
    }
    false
}

// One place of the sheet: a seat is of someone who waited for the game and sits at no earlier place; past the seats nothing is written.
fn is_fair(
    before: Hall,
    game: u8,
    players: &[u64; 64],
    seats: usize,
    place: usize,
    player: u64,
) -> bool {
    if seats <= place {
        return player == BLANK;
    }
    if sits(players, place, player) {
        return false;
    }
    waits_for(before, player, game)
}

// Every place of the sheet.
pub fn are_fair(before: Hall, game: u8, players: &[u64; 64], seats: usize) -> bool {
    for i in 0..64 {
        if !is_fair(before, game, players, seats, i, players[i]) {
            return false;
        }
    }
    seats <= 64
}
