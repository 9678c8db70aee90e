// The entry that a line asks for, by its fields and the guest's roster row.
use crate::fields::Fields;
use crate::guests::Roster;
use crate::words::Heard;
use crate::{commands, complaints, fields};
use hall::Booking;
use queue::QueueEntry;

pub const NEEDED: u32 = fields::GUEST | fields::JOINED;

// What the guest's row gives where a line does not.
const ROW: u32 = fields::RATING | fields::PARTY | fields::ROLE;

pub const ALLOWED: u32 = NEEDED | ROW;

// Rating, party and role are else those of the guest's row; without a row the rating has to be given.
// Nothing where a complaint was made.
pub fn entry_of(roster: Roster, given: Fields, text: &[u8], heard: Heard) -> Option<QueueEntry> {
    if !given.ok {
        return None;
    }
    let guest = given.whole(fields::GUEST);
    let rating = rating_of(given, roster.rating_of(guest));
    let Some(rated) = rating else {
        complaints::needs_rating(text, heard, guest);
        return None;
    };
    Some(QueueEntry {
        player: guest,
        joined: given.whole(fields::JOINED),
        rating: rated,
        party: given.whole_or(fields::PARTY, roster.party_of(guest)),
        role: commands::half(given.whole_or(fields::ROLE, roster.role_of(guest) as u64)),
    })
}

// What the hall takes for an entry that is to wait for a game.
pub fn booking_of(entry: QueueEntry, game: u8) -> Booking {
    Booking {
        player: entry.player,
        joined: entry.joined,
        rating_bits: base::to_bits(entry.rating),
        party: entry.party,
        role: entry.role,
        game,
    }
}

// The fields that a line leaves to the guest's row, as bits: none where there is no row.
pub fn left_to_row(roster: Roster, given: Fields) -> u32 {
    if !roster.has(given.whole(fields::GUEST)) {
        return 0;
    }
    ROW & (given.seen ^ ROW)
}

// The rating that is given, or else the roster's.
fn rating_of(given: Fields, rostered: Option<f64>) -> Option<f64> {
    if given.has(fields::RATING) {
        return Some(given.real(fields::RATING));
    }
    rostered
}
