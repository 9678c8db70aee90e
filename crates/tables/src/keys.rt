// The lines of document 02's keys that stand for whole bookings (2.5).
use crate::{calls, lines, story};
use calls::Call;
use capi::halls;
use hall::{Hall, Note};
use lines::told_as;

// A joined time and a game that every new key refuses.
const LATE: u64 = 9007199254740993;

const NO_GAME: u8 = 200;

// Ratings by their bits: two zeros and two NaNs.
const ZERO: u64 = 0;

const MINUS_ZERO: u64 = 9223372036854775808;

const NAN: u64 = 9221120237041090560;

const OTHER_NAN: u64 = 9221120237041090561;

pub fn all() {
    one_field();
    after_leaving();
    other_bits(b"rating 0.0", ZERO, b"rating -0.0", MINUS_ZERO);
    other_bits(b"rating -0.0", MINUS_ZERO, b"rating 0.0", ZERO);
    other_bits(b"a NaN", NAN, b"another NaN", OTHER_NAN);
    other_bits(b"another NaN", OTHER_NAN, b"a NaN", NAN);
    refused();
    waiting_already();
    older();
    older_answers();
}

fn empty() -> Hall {
    halls::yilgashe_hall_empty(story::games())
}

// ---- bookings under key 1

// Guest 1, with something in every field.
fn booking() -> Call {
    let mut call = calls::booking(1, 1, 1000.0, 5);
    call.game = 1;
    call.party = 2;
    call.role = 3;
    call
}

fn of_guest(guest: u64) -> Call {
    let mut call = booking();
    call.player = guest;
    call
}

fn for_game(game: u8) -> Call {
    let mut call = booking();
    call.game = game;
    call
}

fn joined(time: u64) -> Call {
    let mut call = booking();
    call.time = time;
    call
}

fn rated(bits: u64) -> Call {
    let mut call = booking();
    call.rating_bits = bits;
    call
}

fn with_party(party: u64) -> Call {
    let mut call = booking();
    call.party = party;
    call
}

fn with_role(role: u32) -> Call {
    let mut call = booking();
    call.role = role;
    call
}

// The same booking under another key.
fn under(key: u64) -> Call {
    let mut call = booking();
    call.key = key;
    call
}

// ---- lines

// The same in every field is a resend, and with any one changed there is a clash, also where a new key would get 13 or 4.
fn one_field() {
    let hall = told_as(b"a booking", empty(), booking());
    told_as(b"the same booking", hall, booking());
    told_as(b"another guest", hall, of_guest(2));
    told_as(b"another game", hall, for_game(0));
    told_as(b"a game that is none", hall, for_game(NO_GAME));
    told_as(b"another joined time", hall, joined(6));
    told_as(b"a joined time above 2^53", hall, joined(LATE));
    told_as(b"another rating", hall, rated(base::to_bits(1010.0)));
    told_as(b"another party", hall, with_party(0));
    told_as(b"another role", hall, with_role(0));
    told_as(b"a withdrawal", hall, calls::withdrawal(1, 1));
}

// The note stays when the guest has left. A changed booking takes a new key.
fn after_leaving() {
    let hall = told_as(b"a booking", empty(), booking());
    let left = told_as(b"withdrawn", hall, calls::withdrawal(2, 1));
    told_as(b"withdrawn, the same booking", left, booking());
    told_as(b"withdrawn, another role", left, with_role(0));
    told_as(b"withdrawn, another key", left, under(3));
    told_as(
        b"withdrawn, the withdrawal again",
        left,
        calls::withdrawal(2, 1),
    );
    told_as(
        b"withdrawn, a withdrawal of another guest",
        left,
        calls::withdrawal(2, 3),
    );
    told_as(
        b"withdrawn, a booking under the withdrawal's key",
        left,
        under(2),
    );
}

// Two ratings that no search tells apart.
fn other_bits(words: &[u8], bits: u64, other_words: &[u8], other: u64) {
    let hall = told_as(words, empty(), rated(bits));
    told_as(words, hall, rated(bits));
    told_as(other_words, hall, rated(other));
}

// What is refused is noted whole too: the same again gets its refusal, and corrected it is another booking.
fn refused() {
    let late = told_as(b"a joined time above 2^53", empty(), joined(LATE));
    told_as(b"the same", late, joined(LATE));
    told_as(b"corrected", late, booking());
    let none = told_as(b"a game that is none", empty(), for_game(NO_GAME));
    told_as(b"the same", none, for_game(NO_GAME));
    told_as(b"corrected", none, booking());
}

// The answer of then, whether or not the guest still waits.
fn waiting_already() {
    let one = told_as(b"a booking", empty(), booking());
    let two = told_as(b"another key", one, under(2));
    let left = told_as(b"withdrawn", two, calls::withdrawal(3, 1));
    told_as(b"withdrawn, the other key again", left, under(2));
}

// ---- older notes

// A hall whose note under key 1 is of a booking of guest 1, made when only its guest was noted.
fn noted(answer: u8) -> Hall {
    let mut hall = empty();
    hall.keys[0] = 1;
    hall.notes[0] = Note {
        player: 1,
        joined: 0,
        rating_bits: 0,
        party: 0,
        role: 0,
        game: 0,
        kind: 2,
        answer,
    };
    hall.noted = 1;
    hall
}

// Every booking of the guest is the one noted, and no other call is.
fn older() {
    let hall = noted(0);
    told_as(b"an older note, a booking of its guest", hall, booking());
    told_as(
        b"an older note, a game that is none",
        hall,
        for_game(NO_GAME),
    );
    told_as(
        b"an older note, a joined time above 2^53",
        hall,
        joined(LATE),
    );
    told_as(b"an older note, a NaN", hall, rated(OTHER_NAN));
    told_as(b"an older note, another guest", hall, of_guest(2));
    told_as(
        b"an older note, a withdrawal",
        hall,
        calls::withdrawal(1, 1),
    );
    let booked = told_as(b"an older note, another key", hall, under(2));
    told_as(
        b"the older note after that, another party",
        booked,
        with_party(9),
    );
}

fn older_answers() {
    told_as(b"an older note with 4", noted(4), booking());
    told_as(b"an older note with 9", noted(9), booking());
    told_as(b"an older note with 10", noted(10), booking());
    told_as(b"an older note with 13", noted(13), booking());
    told_as(
        b"an older note with 11, which no booking gets",
        noted(11),
        booking(),
    );
}
