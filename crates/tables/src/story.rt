// A phone resends its bookings after a withdrawal and a round, among guests who are rated alike: nobody is seated for a resend, nor for a
// booking of another game under the key of one. Then two games take turns.
use crate::{calls, text};
use calls::{Answer, Call};
use capi::halls::Games;
use hall::Hall;
use seating::TeamComposition;

pub const CALLS: usize = 22;

// Games 0 and 1 seat one against one, and the others are not used.
pub fn games() -> Games {
    let unused = TeamComposition { a: 0, b: 0 };
    let mut sizes = [unused; 8];
    sizes[0] = TeamComposition { a: 1, b: 1 };
    sizes[1] = TeamComposition { a: 1, b: 1 };
    Games { sizes: sizes }
}

pub fn book(key: u64, guest: u64, game: u8) -> Call {
    let mut booking = calls::booking(key, guest, 1000.0, 0);
    booking.game = game;
    booking
}

fn greedy(game: u8) -> Call {
    calls::round(calls::GREEDY, game, 0, 0, calls::SOUND)
}

pub fn call(place: usize) -> Call {
    match place {
        0 => book(1, 1, 0),
        1 => book(2, 2, 0),
        2 => book(3, 3, 0),
        3 => calls::withdrawal(4, 3),
        4 => greedy(0),
        5 => book(1, 1, 0),
        6 => book(3, 3, 0),
        7 => book(3, 3, 1),
        8 => book(5, 1, 0),
        9 => book(6, 4, 0),
        _ => later(place),
    }
}

// The two games.
fn later(place: usize) -> Call {
    match place {
        10 => book(7, 2, 1),
        11 => book(8, 3, 1),
        12 => book(9, 3, 0),
        13 => book(10, 8, 8),
        14 => book(10, 8, 8),
        15 => greedy(8),
        16 => calls::dispatch(0, calls::SOUND),
        17 => book(11, 8, 0),
        18 => book(12, 9, 0),
        _ => calls::dispatch(0, calls::SOUND),
    }
}

// `book key 1 guest 1`, and for a game other than 0 ` game 1`.
fn name_keyed(call: Call) {
    if call.kind == calls::BOOKING {
        text::say(b"book");
    } else {
        text::say(b"withdraw");
    }
    text::say(b" key ");
    text::number(call.key);
    text::say(b" guest ");
    text::number(call.player);
    if call.game != 0 {
        text::say(b" game ");
        text::number(call.game as u64);
    }
}

fn tell_keyed(call: Call, resend: bool, answer: Answer) {
    name_keyed(call);
    if resend {
        text::say(b" again");
    }
    text::say(b": ");
    text::refusal(answer.refusal);
}

// `greedy round of game 0, 1+1`
fn name_round(kind: u8, game: u8, sizes: TeamComposition) {
    match kind {
        calls::GREEDY => text::say(b"greedy"),
        calls::BEAM => text::say(b"beam"),
        _ => text::say(b"full"),
    }
    text::say(b" round of ");
    text::game(game, sizes.a, sizes.b);
}

// `dispatch to game 0, 1+1`, unless it serves none.
fn name_dispatch(served: u8, sizes: TeamComposition) {
    text::say(b"dispatch");
    if served < 8 {
        text::say(b" to ");
        text::game(served, sizes.a, sizes.b);
    }
}

fn tell_round(call: Call, answer: Answer, players: &[u64; 64], after: Hall) {
    let game = calls::game_of(call, answer);
    let all = after.sizes;
    let sizes = hall::games::sizes_of(all, game);
    if call.kind == calls::DISPATCH {
        name_dispatch(game, sizes);
    } else {
        name_round(call.kind, game, sizes);
    }
    text::say(b": ");
    text::handed(answer, players, sizes.a, sizes.b);
}

// One line: the call, its answer, and how many wait after it.
pub fn tell(call: Call, resend: bool, answer: Answer, players: &[u64; 64], after: Hall) {
    if calls::is_keyed(call) {
        tell_keyed(call, resend, answer);
    } else {
        tell_round(call, answer, players, after);
    }
    text::say(b"; ");
    text::number(after.waiting as u64);
    text::say(b" waiting\n");
}
