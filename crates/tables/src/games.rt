// The lines of document 02's several games under one roof (2.4).
use crate::{calls, lines, story};
use calls::Call;
use hall::Hall;
use lines::told_as;
use seating::TeamComposition;

pub fn all() {
    over_limits(b"a size of 9", sized(2, 9, 0));
    over_limits(b"last game served 9", served(9));
    over_limits(b"last game served 7", served(7));
    unused();
    circle();
    forms_nothing();
}

// ---- halls

// Guests 1, 2 and 3 wait for game 0, and this game has these sizes.
fn sized(game: usize, a: usize, b: usize) -> Hall {
    let mut hall = lines::three_waiting(0);
    if game < 8 {
        hall.sizes[game] = TeamComposition { a: a, b: b };
    }
    hall
}

// The same, where this game was served last.
fn served(game: u8) -> Hall {
    let mut hall = lines::three_waiting(0);
    hall.served = game;
    hall
}

// ---- calls

fn round(kind: u8, game: u8) -> Call {
    calls::round(kind, game, 0, 0, calls::SOUND)
}

fn dispatch() -> Call {
    calls::dispatch(0, calls::SOUND)
}

// Every call of a hall that may be over its limits. A round's game is looked at first.
fn over_limits(words: &[u8], hall: Hall) {
    told_as(words, hall, story::book(1, 4, 0));
    told_as(words, hall, calls::withdrawal(1, 3));
    told_as(words, hall, round(calls::GREEDY, 0));
    told_as(words, hall, round(calls::BEAM, 1));
    told_as(words, hall, round(calls::FULL, 0));
    told_as(words, hall, round(calls::FULL, 8));
    told_as(words, hall, dispatch());
}

// A game that is not used takes a booking. Its full round hands out the empty match, and the others form nothing.
fn unused() {
    let words = b"game 7 is not used";
    let hall = told_as(words, lines::three_waiting(0), story::book(1, 4, 7));
    told_as(words, hall, round(calls::GREEDY, 7));
    told_as(words, hall, round(calls::BEAM, 7));
    told_as(words, hall, round(calls::FULL, 7));
}

// Guests 1, 2 and 3 wait for game 0, and guests 4 and 5 for game 1. The one served last comes last in the circle.
fn circle() {
    let words = b"games 0 and 1 have enough";
    let one = told_as(words, lines::three_waiting(0), story::book(1, 4, 1));
    let mut hall = told_as(words, one, story::book(2, 5, 1));
    told_as(words, hall, dispatch());
    hall.served = 0;
    told_as(b"the same, game 0 served last", hall, dispatch());
    hall.served = 1;
    told_as(b"the same, game 1 served last", hall, dispatch());
    hall.served = 7;
    told_as(b"the same, game 7 served last", hall, dispatch());
    hall.sizes[1] = TeamComposition { a: 2, b: 1 };
    hall.served = 0;
    told_as(
        b"game 1 is 2+1 and has too few, game 0 served last",
        hall,
        dispatch(),
    );
}

// A game without a team A takes its turn all the same.
fn forms_nothing() {
    let hall = told_as(b"game 0 is 0+3", sized(0, 0, 3), dispatch());
    told_as(b"game 0 is 0+3, after that", hall, dispatch());
    told_as(b"game 0 is 0+4", sized(0, 0, 4), dispatch());
}
