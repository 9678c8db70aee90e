// The key book: only the look-up of a key, and the store behind it, know how keys are kept.
ghost use Rattle.std.specs.Prelude.{◌≡◌, eqb, take};
ghost use Rattle.base.specs.Numbers.{outcome_in};
ghost use Rattle.base.specs.Lists.{place};
ghost use Rattle.hall.specs.Hall.{same_booking, same, booking_in, content_in, book, withdraw, content_of, answer_in};
ghost use Rattle.hall.specs.Steps.{heard_or, heard_from, note_with};

use crate::{Booking, Note};

// The place of the key among the first n, or how many of them there are.
pub fn place_of(keys: &[u64], n: usize, key: u64) -> usize
    ensures { result ≡ place (λ x. eqb x key) (take n keys.now) }
{
    let book = &keys[..base::at_most(n, keys.len())];
    for i in 0..book.len() {
        let is_key = book[i] == key;
        if is_key {
            return i;
        }
    }
    book.len()
}

// The answer that was noted of a booking, and 7 where the number stands for none.
fn booking_heard(answer: u8) -> u8
    ensures { outcome_in result tt ≡ heard_or (answer_in 0 answer) }
{
    if answer == 0 {
        return 0;
    }
    if answer == 4 {
        return 4;
    }
    if answer == 9 {
        return 9;
    }
    if answer == 10 {
        return 10;
    }
    if answer == 13 {
        return 13;
    }
    7
}

// The answer that was noted of a withdrawal, and 7 where the number stands for none.
fn withdrawal_heard(answer: u8) -> u8
    ensures { outcome_in result tt ≡ heard_or (answer_in 1 answer) }
{
    if answer == 0 {
        return 0;
    }
    if answer == 11 {
        return 11;
    }
    7
}

// Is this the booking that was noted, in every field?
fn is_same(note: Note, booking: Booking) -> bool
    ensures { result ≡ same_booking (booking_in note) booking }
{
    if note.player != booking.player {
        return false;
    }
    if note.game != booking.game {
        return false;
    }
    if note.joined != booking.joined {
        return false;
    }
    if note.rating_bits != booking.rating_bits {
        return false;
    }
    if note.party != booking.party {
        return false;
    }
    note.role == booking.role
}

// Does the key of this note stand for the booking? All of it is compared, or just its guest where only the guest was noted.
fn stands_for(note: Note, booking: Booking) -> bool
    ensures { result ≡ same (content_in note) (content_of (book booking)) }
{
    if note.kind == 0 {
        return is_same(note, booking);
    }
    if note.kind == 2 {
        return note.player == booking.player;
    }
    false
}

// What a note says to a booking with its key.
pub fn heard_booking(note: Note, booking: Booking) -> u8
    ensures { outcome_in result tt ≡ heard_from note (content_of (book booking)) }
{
    if stands_for(note, booking) {
        return booking_heard(note.answer);
    }
    7
}

// What a note says to a withdrawal with its key.
pub fn heard_withdrawal(note: Note, player: u64) -> u8
    ensures { outcome_in result tt ≡ heard_from note (content_of (withdraw player)) }
{
    if note.kind != 1 {
        return 7;
    }
    if note.player != player {
        return 7;
    }
    withdrawal_heard(note.answer)
}

// The note of a booking that got this answer.
pub fn booking_note(booking: Booking, answer: u8) -> Note
    ensures { result ≡ note_with (content_of (book booking)) answer }
{
    Note {
        player: booking.player,
        joined: booking.joined,
        rating_bits: booking.rating_bits,
        party: booking.party,
        role: booking.role,
        game: booking.game,
        kind: 0,
        answer,
    }
}

// The note of a withdrawal that got this answer: just its guest.
pub fn withdrawal_note(player: u64, answer: u8) -> Note
    ensures { result ≡ note_with (content_of (withdraw player)) answer }
{
    Note {
        player,
        joined: 0,
        rating_bits: 0,
        party: 0,
        role: 0,
        game: 0,
        kind: 1,
        answer,
    }
}
