// Why a key clashes. It stands for one whole booking or one withdrawal, and the guest at the counter asks what is different now.
use crate::{fields, print};
use hall::{Booking, Hall, Note, notes, waiting};

// ---- a field that differs

// `  party: noted `
fn field(name: &[u8]) {
    print::text(b"  ");
    print::text(name);
    print::text(b": noted ");
}

fn now() {
    print::text(b", now ");
}

// The end of its line. Where the value comes from the guest's row, a row that was replaced since explains it.
fn end(from_row: bool) {
    if from_row {
        print::text(b", from the guest's row");
    }
    print::text(b"\n");
}

fn whole(name: &[u8], noted: u64, given: u64, from_row: bool) {
    if noted == given {
        return;
    }
    field(name);
    io::print_decimal(1, noted);
    now();
    io::print_decimal(1, given);
    end(from_row);
}

fn time(noted: u64, given: u64) {
    if noted == given {
        return;
    }
    field(b"joined");
    print::time(noted, 0);
    now();
    print::time(given, 0);
    end(false);
}

// A rating by its bits.
fn rating(noted: u64, given: u64, from_row: bool) {
    if noted == given {
        return;
    }
    let told = print::tell_apart(base::from_bits(noted), base::from_bits(given), 2);
    field(b"rating");
    rated(noted, told);
    now();
    rated(given, told);
    end(from_row);
}

// In decimals, and with all its bits where these do not tell it from the other: two zeros, say, or a difference far behind the point.
fn rated(bits: u64, told: bool) {
    print::real(base::from_bits(bits), 2, 0);
    if told {
        return;
    }
    print::text(b" (0x");
    io::print_hex(1, bits, 16);
    print::text(b")");
}

// Every field in which the booking differs from the noted one.
fn differences(note: Note, booking: Booking, from_row: u32) {
    guest(note.player, booking.player);
    whole(b"game", note.game as u64, booking.game as u64, false);
    time(note.joined, booking.joined);
    rating(
        note.rating_bits,
        booking.rating_bits,
        from_row & fields::RATING != 0,
    );
    whole(
        b"party",
        note.party,
        booking.party,
        from_row & fields::PARTY != 0,
    );
    whole(
        b"role",
        note.role as u64,
        booking.role as u64,
        from_row & fields::ROLE != 0,
    );
}

fn guest(noted: u64, given: u64) {
    whole(b"guest", noted, given, false);
}

// ---- what the key stands for

// The note of a key.
fn note_of(hall: Hall, key: u64) -> Option<Note> {
    let keys = hall.keys;
    let all = hall.notes;
    let n = hall.noted;
    let at = notes::place_of(&keys, n, key);
    if at < n && at < 1024 {
        return Some(all[at]);
    }
    None
}

// `key 7 stands for another booking`
fn about_key(key: u64, what: &[u8]) {
    print::text(b"key ");
    io::print_decimal(1, key);
    print::text(b" stands for ");
    print::text(what);
}

// `key 7 stands for a booking of guest 12`
fn of_guest(key: u64, what: &[u8], guest: u64) {
    about_key(key, what);
    print::text(b" of guest ");
    io::print_decimal(1, guest);
    print::text(b"\n");
}

// The note of an older booking has only its guest, so it clashes by the guest alone.
fn unlike(key: u64, note: Note, booking: Booking, from_row: u32) {
    if note.kind == 0 {
        about_key(key, b"another booking\n");
        differences(note, booking, from_row);
    } else if note.kind == 2 {
        about_key(key, b"a booking of another guest\n");
        guest(note.player, booking.player);
    } else {
        of_guest(key, b"a withdrawal", note.player);
    }
}

// ---- what to do

fn own_key() {
    print::text(b"each booking and withdrawal takes a key of its own\n");
}

// Who waits, by the noted booking or another, would get 9 with a new key.
fn new_key(hall: Hall, guest: u64) {
    let bookings = hall.bookings;
    print::text(b"a changed booking takes a new key");
    if waiting::waits(bookings, hall.waiting, guest) {
        print::text(b"; guest ");
        io::print_decimal(1, guest);
        print::text(b" waits, so withdraw first");
    }
    print::text(b"\n");
}

// ---- the two calls

// Why a booking clashes. `from_row` are the fields that it has from the guest's row.
pub fn booking(hall: Hall, key: u64, booking: Booking, from_row: u32) {
    let read = note_of(hall, key);
    let Some(note) = read else {
        return;
    };
    unlike(key, note, booking, from_row);
    if note.kind == 0 && note.player == booking.player {
        new_key(hall, booking.player);
        return;
    }
    own_key();
}

// Why a withdrawal clashes.
pub fn withdrawal(hall: Hall, key: u64, player: u64) {
    let read = note_of(hall, key);
    let Some(note) = read else {
        return;
    };
    if note.kind == 1 {
        about_key(key, b"another withdrawal\n");
        guest(note.player, player);
    } else {
        of_guest(key, b"a booking", note.player);
    }
    own_key();
}
