// What is checked of dispatches: whose turn it was.
use hall::Hall;

// How often each game was passed over in a row: it had enough before the dispatch, and another was served.
#[derive(Clone, Copy)]
pub struct Turns {
    pub passed: [u64; 8],
}

pub fn none() -> Turns {
    Turns { passed: [0; 8] }
}

// Do enough wait for a table of the game?
fn has_enough(hall: Hall, game: u8) -> bool {
    let sizes = hall.sizes;
    let bookings = hall.bookings;
    let own = hall::games::sizes_of(sizes, game);
    let each = std::num::wrapping_add_usize(own.a, own.b);
    0 < each && each <= hall::waiting::count(bookings, hall.waiting, game)
}

fn any_has_enough(hall: Hall) -> bool {
    for game in 0..8 {
        if has_enough(hall, game) {
            return true;
        }
    }
    false
}

// The game served had enough; none is served where none has. The hall then has the last one served.
pub fn is_due(before: Hall, after: Hall, served: u8) -> bool {
    if served < 8 {
        return after.served == served && has_enough(before, served);
    }
    after.served == before.served && !any_has_enough(before)
}

impl Turns {
    fn at(self, game: u8) -> u64 {
        let passed = self.passed;
        let i = game as usize;
        if i < 8 {
            return passed[i];
        }
        0
    }

    fn with(self, game: u8, passed: u64) -> Turns {
        let i = game as usize;
        let mut turns = self;
        if i < 8 {
            turns.passed[i] = passed;
        }
        turns
    }

    // The game after a dispatch: passed over once more, or begun anew.
    fn stepped(self, before: Hall, served: u8, game: u8) -> Turns {
        if game == served || !has_enough(before, game) {
            return self.with(game, 0);
        }
        self.with(game, std::num::wrapping_add_u64(self.at(game), 1))
    }

    // Every game after a dispatch that was not refused.
    pub fn after(self, before: Hall, served: u8) -> Turns {
        let mut turns = self;
        for game in 0..8 {
            turns = turns.stepped(before, served, game);
        }
        turns
    }

    // How often the game that is longest without a turn was passed over.
    pub fn longest(self) -> u64 {
        let mut longest: u64 = 0;
        for game in 0..8 {
            longest = greater(longest, self.at(game));
        }
        longest
    }
}

pub fn greater(x: u64, y: u64) -> u64 {
    if x < y {
        return y;
    }
    x
}
