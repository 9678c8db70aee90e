// The queue, the key book and the totals.
use crate::tally::Tally;
use crate::words::Heard;
use crate::{fields, games, print, refusals};
use base::Refusal;
use hall::{Hall, Note, waiting};
use queue::{Queue, QueueEntry};

// ---- who waits

// `queue at 120s`
// Nothing where a complaint was made, or the clock was refused.
fn clock_of(text: &[u8], heard: Heard) -> Option<u64> {
    let given = fields::read(text, heard, heard.behind(), fields::AT, fields::AT);
    if !given.ok {
        return None;
    }
    let clock = given.whole(fields::AT);
    if queue::time::is_over(clock) {
        refusals::refused(Refusal::Clock);
        return None;
    }
    Some(clock)
}

// Who waits in the hall.
pub fn queue(hall: Hall, text: &[u8], heard: Heard) {
    let read = clock_of(text, heard);
    let Some(clock) = read else {
        return;
    };
    if hall.waiting == 0 {
        print::text(b"nobody waits\n");
        return;
    }
    each_game(hall, clock);
}

// Game by game, so that each guest's place is the one that a round of the game goes by.
fn each_game(hall: Hall, clock: u64) {
    for game in 0..8 {
        of_game(hall, game, clock);
    }
}

// A game, unless nobody waits for it.
fn of_game(hall: Hall, game: u8, clock: u64) {
    let bookings = hall.bookings;
    let sizes = hall.sizes;
    let queue = waiting::eligible(bookings, hall.waiting, game);
    if queue.len == 0 {
        return;
    }
    games::title(game, hall::games::sizes_of(sizes, game));
    print::text(b"\n");
    waiters(queue, clock);
}

// Who waits in a queue of the old counter.
pub fn old_queue(old: Queue, text: &[u8], heard: Heard) {
    let read = clock_of(text, heard);
    let Some(clock) = read else {
        return;
    };
    if old.len == 0 {
        print::text(b"nobody waits\n");
        return;
    }
    waiters(old, clock);
}

// One entry's line.
fn waiter(place: usize, entry: QueueEntry, clock: u64) {
    print::whole(place as u64, 7);
    print::whole(entry.player, 12);
    print::real(entry.rating, 2, 12);
    print::whole(entry.party, 8);
    print::whole(entry.role as u64, 8);
    print::wait(queue::time::elapsed(clock, entry.joined), 12);
    print::text(b"\n");
}

// Everybody in a queue, in its order.
fn waiters(waiting: Queue, clock: u64) {
    let queued = waiting.entries;
    let n = waiting.len;
    print::text(b"  place       guest      rating   party    role      waited\n");
    for i in 0..64 {
        if n <= i {
            return;
        }
        let entry = queued[i];
        waiter(i + 1, entry, clock);
    }
}

// ---- the key book

// An old book is a booking noted when only its guest was.
fn call(kind: u8) {
    match kind {
        0 => print::text(b"  book    "),
        2 => print::text(b"  old book"),
        _ => print::text(b"  withdraw"),
    }
}

// What a key stands for beside its guest, and - where its note has only the guest.
fn booked(note: Note) {
    if note.kind != 0 {
        print::right(b"-", 6);
        print::right(b"-", 12);
        print::right(b"-", 12);
        print::right(b"-", 7);
        print::right(b"-", 6);
        return;
    }
    print::whole(note.game as u64, 6);
    print::time(note.joined, 12);
    print::real(base::from_bits(note.rating_bits), 2, 12);
    print::whole(note.party, 7);
    print::whole(note.role as u64, 6);
}

// One key's line.
fn noted(key: u64, note: Note) {
    print::whole(key, 12);
    call(note.kind);
    print::whole(note.player, 12);
    booked(note);
    print::text(b"  ");
    refusals::noted(note.answer);
    print::text(b"\n");
}

pub fn keys(hall: Hall, text: &[u8], heard: Heard) {
    if fields::end(text, heard, heard.behind()) {
        book(hall);
    }
}

// Each key with the note at its place.
fn book(hall: Hall) {
    let keys = hall.keys;
    let notes = hall.notes;
    let n = hall.noted;
    if n == 0 {
        print::text(b"no keys\n");
        return;
    }
    print::text(
        b"         key  call           guest  game      joined      rating  party  role  answer\n",
    );
    for i in 0..1024 {
        if n <= i {
            return;
        }
        let note = notes[i];
        noted(keys[i], note);
    }
}

// ---- the sum of demand 3

// Is it an accepted call of this kind?
fn is_accepted(note: Note, kind: u8) -> bool {
    if note.answer != 0 {
        return false;
    }
    note.kind == kind
}

// How many of the first n notes are of accepted calls of a kind.
fn accepted(notes: [Note; 1024], n: usize, kind: u8) -> u64 {
    let mut count: u64 = 0;
    for i in 0..n.min(1024) {
        if is_accepted(notes[i], kind) {
            count = std::num::wrapping_add_u64(count, 1);
        }
    }
    count
}

// Of all games, as the key book has it, and of each.
pub fn totals(hall: Hall, tally: Tally, text: &[u8], heard: Heard) {
    if !fields::end(text, heard, heard.behind()) {
        return;
    }
    let notes = hall.notes;
    let n = hall.noted;
    sum(
        accepted(notes, n, 0),
        hall.waiting as u64,
        accepted(notes, n, 1),
        tally.seated_in_all(),
    );
    each_total(hall, tally);
}

fn each_total(hall: Hall, tally: Tally) {
    for game in 0..8 {
        total(hall, tally, game);
    }
}

// `game 1, 2+2: accepted ..`, unless the game is not used and nobody booked it.
fn total(hall: Hall, tally: Tally, game: u8) {
    let sizes = hall.sizes;
    let bookings = hall.bookings;
    let i = game as usize;
    if 8 <= i {
        return;
    }
    let booked = tally.accepted[i];
    let own = hall::games::sizes_of(sizes, game);
    if booked == 0 && !games::is_used(own) {
        return;
    }
    games::title(game, own);
    print::text(b": ");
    sum(
        booked,
        waiting::count(bookings, hall.waiting, game) as u64,
        tally.withdrawn[i],
        tally.seated[i],
    );
}

// `accepted 12 = waiting 3 + withdrawn 1 + seated 8: holds`
fn sum(booked: u64, waiting: u64, withdrawn: u64, seated: u64) {
    let left = std::num::wrapping_add_u64(withdrawn, seated);
    print::text(b"accepted ");
    io::print_decimal(1, booked);
    print::text(b" = waiting ");
    io::print_decimal(1, waiting);
    print::text(b" + withdrawn ");
    io::print_decimal(1, withdrawn);
    print::text(b" + seated ");
    io::print_decimal(1, seated);
    if booked == std::num::wrapping_add_u64(waiting, left) {
        print::text(b": holds\n");
        return;
    }
    print::text(b": DOES NOT HOLD\n");
}
