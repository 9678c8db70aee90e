// The hall: who waits, for which of eight games, and the book of keys by which a resent call gets the answer that it got. What its calls
// are made of stands here, in functions of numbers and of bookings; the calls themselves, which take a hall and hand out the hall as they leave it, are the
// exported ones: each function that a hall goes through copies it once more.
#![tactic(auto)]

ghost use Rattle.std.specs.Prelude.{◌≡◌, ltb};
ghost use Rattle.base.specs.Numbers.{outcome_in};
ghost use Rattle.hall.specs.Games.{is_no_game};
ghost use Rattle.hall.specs.Hall.{over_limits, booking_answer, withdrawal_answer};
ghost use Rattle.hall.specs.Rounds.{hall_check};

use seating::TeamComposition;

// Who waits.
pub mod waiting;

// The key book.
pub mod notes;

// The games: their sizes, and whose turn it is.
pub mod games;

// What the rounds hand out.
pub mod rounds;

// What a call brings beside its key, and what waits. The rating comes as its bits, since a key stands for these: two zeros differ, and two
// NaNs. Party 0 and role 0 mean none.
#[repr(C)]
#[derive(Clone, Copy)]
pub struct Booking {
    pub player: u64,
    pub joined: u64,
    pub rating_bits: u64,
    pub party: u64,
    pub role: u32,
    pub game: u8,
}

// What is noted beside a key. Kind 0 is a booking, with all its fields; 1 a withdrawal; 2 a booking noted when only its guest was: of the
// last two just the guest counts, and no call makes a note of kind 2. Answer 0 is accepted, n is refusal n.
#[repr(C)]
#[derive(Clone, Copy)]
pub struct Note {
    pub player: u64,
    pub joined: u64,
    pub rating_bits: u64,
    pub party: u64,
    pub role: u32,
    pub game: u8,
    pub kind: u8,
    pub answer: u8,
}

// The first `waiting` bookings wait, in the order of coming. The first `noted` keys are noted, in the order of coming, each with the
// note at its place. The places behind mean nothing. Each game has its sizes, 0 and 0 where it is not used; `served` is the last game that
// a dispatch served, 255 where none was.
#[repr(C)]
#[derive(Clone, Copy)]
pub struct Hall {
    pub bookings: [Booking; 64],
    pub waiting: usize,
    pub keys: [u64; 1024],
    pub notes: [Note; 1024],
    pub noted: usize,
    pub sizes: [TeamComposition; 8],
    pub served: u8,
}

// Is a hall with these numbers over its limits?
pub fn is_over(waiting: usize, noted: usize, sizes: [TeamComposition; 8], served: u8) -> bool
    ensures { result ≡ over_limits waiting noted sizes served }
{
    if 64 < waiting {
        return true;
    }
    if 1024 < noted {
        return true;
    }
    games::are_over(sizes, served)
}

// The first refusals of a round of a game: 13, 1 where the hall is over its limits, or none.
pub fn round_answer(game: u8, over: bool) -> u8
    ensures { outcome_in result tt ≡ hall_check (is_no_game game) over }
{
    if 7 < game {
        return 13;
    }
    if over {
        return 1;
    }
    0
}

// A new key's booking: 13, 4, 9, 10, or accepted.
pub fn booking_answer(booking: Booking, waits: bool, waiting: usize) -> u8
    ensures { outcome_in result tt ≡ booking_answer booking waits (ltb waiting 64) }
{
    if 7 < booking.game {
        return 13;
    }
    if queue::time::is_over(booking.joined) {
        return 4;
    }
    if waits {
        return 9;
    }
    if waiting < 64 {
        return 0;
    }
    10
}

// A new key's withdrawal: accepted, or 11.
pub fn withdrawal_answer(waits: bool) -> u8
    ensures { outcome_in result tt ≡ withdrawal_answer waits }
{
    if waits {
        return 0;
    }
    11
}
