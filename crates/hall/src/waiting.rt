// Who waits: the first bookings of an array.
ghost use Rattle.std.specs.Prelude.{◌≡◌, ◌++◌, map, ◌+◌, ◌-◌, ◌≤◌, ◌<◌, length, take, drop};
ghost use Rattle.base.specs.Lists.{any, place, member};
ghost use Rattle.queue.specs.Queue.{queue_of, holding};
ghost use Rattle.hall.specs.Games.{eligible};
ghost use Rattle.hall.specs.Hall.{waits_with, awaiting, booked_by, has_time_over, without_guest, without_guests, entry_of};
ghost use Rattle.hall.specs.Steps.{clock_among};

use crate::Booking;
use queue::{Queue, QueueEntry};

// Those who stay when others leave: the first `waiting` bookings. The places behind mean nothing.
#[derive(Clone, Copy)]
pub struct Staying {
    pub bookings: [Booking; 64],
    pub waiting: usize,
}

impl Booking {
    // The queue's entry of a booking. Nothing else in the hall makes one.
    fn entry(self) -> QueueEntry
        ensures { result ≡ entry_of self }
    {
        QueueEntry {
            player: self.player,
            joined: self.joined,
            rating: base::from_bits(self.rating_bits),
            party: self.party,
            role: self.role,
        }
    }
}

// The place of the player's first booking, or how many bookings there are.
fn place_of(bookings: &[Booking], player: u64) -> usize
    ensures { result ≡ place (booked_by player) bookings.now }
{
    bookings
        .iter()
        .position(|booking| booking.player == player)
        .unwrap_or(bookings.len())
}

// The first n bookings without the one at `at`, moved up by one.
fn closed_up(bookings: [Booking; 64], n: usize, at: usize) -> [Booking; 64]
    requires { (n ≤ 64) × (at < n) }
    ensures { take (n - 1) result ≡ take at (take n bookings) ++ drop (at + 1) (take n bookings) }
{
    let mut out = bookings;
    out.copy_within(at + 1..n, at);
    out
}

// Has the player one of the first n bookings?
pub fn waits(bookings: [Booking; 64], n: usize, player: u64) -> bool
    ensures { result ≡ any (booked_by player) (take n bookings) }
{
    let k = base::at_most(n, 64);
    place_of(&bookings[..k], player) < k
}

// The first n bookings without the first one of the player.
pub fn without_first(bookings: [Booking; 64], n: usize, player: u64) -> Staying
    ensures { waits_with result.waiting result.bookings ≡ awaiting (without_guest player (take n bookings)) }
{
    let k = base::at_most(n, 64);
    let at = place_of(&bookings[..k], player);
    if k <= at {
        return Staying {
            bookings,
            waiting: k,
        };
    }
    let rest = closed_up(bookings, k, at);
    Staying {
        bookings: rest,
        waiting: k - 1,
    }
}

// Does the player stand in the first `seats` places of the sheet? `base::is_among` on that part of it makes a round copy its hall once
// more: the compiler then inlines otherwise.
fn is_seated(players: &[u64], seats: usize, player: u64) -> bool
    ensures { result ≡ member player (take seats players.now) }
{
    for seated in &players[..base::at_most(seats, players.len())] {
        if *seated == player {
            return true;
        }
    }
    false
}

// The first n bookings without those of the players in the first `seats` places of the sheet.
pub fn without_seated(bookings: [Booking; 64], n: usize, players: &[u64], seats: usize) -> Staying
    ensures { waits_with result.waiting result.bookings ≡ awaiting (without_guests (take seats players.now) (take n bookings)) }
{
    let k = base::at_most(n, 64);
    let mut stay = bookings;
    let mut m: usize = 0;
    for booking in &bookings[..k] {
        if !is_seated(players, seats, booking.player) {
            stay[m] = *booking;
            m += 1;
        }
    }
    Staying {
        bookings: stay,
        waiting: m,
    }
}

// ---- what a round reads

// How many of the first n bookings are of the game?
pub fn count(bookings: [Booking; 64], n: usize, game: u8) -> usize
    ensures { result ≡ length (eligible game (take n bookings)) }
{
    let k = base::at_most(n, 64);
    bookings[..k]
        .iter()
        .filter(|booking| booking.game == game)
        .count()
}

// The bookings of the game among the first n.
fn of_game(bookings: [Booking; 64], n: usize, game: u8) -> Staying
    ensures { waits_with result.waiting result.bookings ≡ awaiting (eligible game (take n bookings)) }
{
    let k = base::at_most(n, 64);
    let mut own = bookings;
    let mut found: usize = 0;
    for booking in &bookings[..k] {
        if booking.game == game {
            own[found] = *booking;
            found += 1;
        }
    }
    Staying {
        bookings: own,
        waiting: found,
    }
}

// The first n bookings as a queue.
fn queue_of(bookings: [Booking; 64], n: usize) -> Queue
    ensures { queue_of result ≡ holding (map entry_of (take n bookings)) }
{
    let k = base::at_most(n, 64);
    let mut queue = Queue::empty();
    for (i, booking) in bookings[..k].iter().enumerate() {
        queue.entries[i] = booking.entry();
    }
    queue.len = k;
    queue
}

// The queue of those of the first n bookings whom a round of the game may seat.
pub fn eligible(bookings: [Booking; 64], n: usize, game: u8) -> Queue
    ensures { queue_of result ≡ holding (map entry_of (eligible game (take n bookings))) }
{
    let own = of_game(bookings, n, game);
    let row = own.bookings;
    queue_of(row, own.waiting)
}

// Has one of the first n bookings a time above 2^53?
fn has_time_over(bookings: [Booking; 64], n: usize) -> bool
    ensures { result ≡ any has_time_over (take n bookings) }
{
    let k = base::at_most(n, 64);
    bookings[..k]
        .iter()
        .any(|booking| queue::time::is_over(booking.joined))
}

// The clock that a round is checked by: one above 2^53 where a time is, of whatever game, since a search sees only its own game's.
pub fn clock_among(bookings: [Booking; 64], n: usize, clock: u64) -> u64
    ensures { result ≡ clock_among clock (take n bookings) }
{
    if has_time_over(bookings, n) {
        return 18446744073709551615;
    }
    clock
}
