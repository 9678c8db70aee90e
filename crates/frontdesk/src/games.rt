// The games of the evening, whose sizes `open` gives.
use crate::desk::Desk;
use crate::numbers::Problem;
use crate::values::ReadSizes;
use crate::words::{Heard, Word};
use crate::{complaints, print, values, words};
use capi::halls::Games;
use hall::Booking;
use seating::TeamComposition;

// The sizes that a line gives so far.
#[derive(Clone, Copy)]
struct Opening {
    sizes: [TeamComposition; 8],
    // How many games.
    count: usize,
    // Behind the last sizes that were read.
    at: usize,
    // False once a complaint was made.
    ok: bool,
}

impl Opening {
    fn none(at: usize) -> Opening {
        Opening {
            sizes: [TeamComposition { a: 0, b: 0 }; 8],
            count: 0,
            at,
            ok: true,
        }
    }

    fn failed(self) -> Opening {
        let mut next = self;
        next.ok = false;
        next
    }

    // One game more, unless there are eight.
    fn with(self, game: TeamComposition, at: usize) -> Opening {
        let n = self.count;
        let mut next = self;
        next.at = at;
        if n < 8 {
            next.sizes[n] = game;
            next.count = n + 1;
        }
        next
    }
}

// ---- opening

// `open 5+5 2+2`: the sizes of game 0, of game 1 and so on. Every other game is not used.
pub fn open(desk: Desk, text: &[u8], heard: Heard) -> Desk {
    if desk.open {
        complaints::open_already(heard);
        return desk;
    }
    let opening = read(text, heard);
    if !opening.ok {
        return desk;
    }
    let sizes = opening.sizes;
    print::text(b"the hall is open\n");
    list(sizes, opening.count);
    desk.opened(Games { sizes: sizes })
}

// Has the hall been opened? A complaint is made where it hasn't.
pub fn is_open(open: bool, heard: Heard) -> bool {
    if !open {
        complaints::not_open(heard);
    }
    open
}

// One game at least and eight at most.
fn read(text: &[u8], heard: Heard) -> Opening {
    let opening = read_all(text, heard);
    if !opening.ok {
        return opening;
    }
    let rest = words::next(text, opening.at);
    if rest.is_end() {
        return opening;
    }
    complaints::word(text, heard, b"eight games at most", rest);
    opening.failed()
}

// The first eight games of the line.
fn read_all(text: &[u8], heard: Heard) -> Opening {
    let mut opening = one_more(text, heard, Opening::none(heard.behind()));
    for _ in 0..7 {
        let word = words::next(text, opening.at);
        if word.is_end() || !opening.ok {
            return opening;
        }
        opening = one_more(text, heard, opening);
    }
    opening
}

fn one_more(text: &[u8], heard: Heard, opening: Opening) -> Opening {
    let word = words::next(text, opening.at);
    let read = values::sizes(words::bytes_of(text, word));
    if is_complaint(text, heard, read, word) {
        return opening.failed();
    }
    let game = TeamComposition {
        a: read.a as usize,
        b: read.b as usize,
    };
    opening.with(game, word.to)
}

// A hall with a team of more than 8 would refuse every call, so it is not opened.
fn is_complaint(text: &[u8], heard: Heard, read: ReadSizes, word: Word) -> bool {
    let problem = read.problem;
    let Problem::Nothing = problem else {
        complaints::word(text, heard, b"team sizes such as 5+5", word);
        return true;
    };
    if 8 < read.a || 8 < read.b {
        complaints::word(text, heard, b"teams of 8 guests at most", word);
        return true;
    }
    false
}

// ---- what is shown

// `game 1, 2+2`
pub fn title(game: u8, sizes: TeamComposition) {
    print::text(b"game ");
    io::print_decimal(1, game as u64);
    if !is_used(sizes) {
        print::text(b", not used");
        return;
    }
    print::text(b", ");
    print::sizes(sizes.a, sizes.b);
}

// The hall takes bookings for a game that is not used, and no table ever seats them. Staff should know.
pub fn remark(game: u8, sizes: [TeamComposition; 8]) {
    if is_used(hall::games::sizes_of(sizes, game)) {
        return;
    }
    print::text(b"game ");
    io::print_decimal(1, game as u64);
    print::text(b" is not used, so nobody is seated from it\n");
}

pub fn is_used(sizes: TeamComposition) -> bool {
    0 < sizes.a || 0 < sizes.b
}

// The first `count` games, a line for each.
fn list(sizes: [TeamComposition; 8], count: usize) {
    for game in 0..8 {
        if count <= game as usize {
            return;
        }
        title(game, hall::games::sizes_of(sizes, game));
        print::text(b"\n");
    }
}

// ---- who waits for which

// The game that a guest waits for, and 255 where the guest doesn't wait.
pub fn of_guest(bookings: [Booking; 64], n: usize, guest: u64) -> u8 {
    for i in 0..64 {
        if n <= i {
            return 255;
        }
        let booking = bookings[i];
        if booking.player == guest {
            return booking.game;
        }
    }
    255
}
