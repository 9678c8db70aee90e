// What came of the bookings, game by game. The key book tells no game of a withdrawal and nothing of seats, so the desk counts for itself.
#[derive(Clone, Copy)]
pub struct Tally {
    pub accepted: [u64; 8],
    pub withdrawn: [u64; 8],
    pub seated: [u64; 8],
}

impl Tally {
    pub fn empty() -> Tally {
        Tally {
            accepted: [0; 8],
            withdrawn: [0; 8],
            seated: [0; 8],
        }
    }

    // One more booking for this game.
    pub fn with_accepted(self, game: u8) -> Tally {
        let i = game as usize;
        let mut next = self;
        if i < 8 {
            let more = std::num::wrapping_add_u64(next.accepted[i], 1);
            next.accepted[i] = more;
        }
        next
    }

    // One booking for this game was taken back.
    pub fn with_withdrawn(self, game: u8) -> Tally {
        let i = game as usize;
        let mut next = self;
        if i < 8 {
            let more = std::num::wrapping_add_u64(next.withdrawn[i], 1);
            next.withdrawn[i] = more;
        }
        next
    }

    // So many guests more sit at tables of this game.
    pub fn with_seated(self, game: u8, guests: u64) -> Tally {
        let i = game as usize;
        let mut next = self;
        if i < 8 {
            let more = std::num::wrapping_add_u64(next.seated[i], guests);
            next.seated[i] = more;
        }
        next
    }

    // The guests seated at tables of all games.
    pub fn seated_in_all(self) -> u64 {
        let seated = self.seated;
        let mut sum: u64 = 0;
        for i in 0..8 {
            sum = std::num::wrapping_add_u64(sum, seated[i]);
        }
        sum
    }
}
