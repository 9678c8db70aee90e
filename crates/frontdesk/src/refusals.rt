// The refusals, by their numbers and in their words: those of document 01, and what each request added.
use crate::print;
use base::Refusal;

// The first six of the table.
fn word(number: u8) {
    match number {
        1 => print::text(b"over limit"),
        2 => print::text(b"bad roster"),
        3 => print::text(b"short sheet"),
        4 => print::text(b"clock"),
        5 => print::text(b"unranked"),
        6 => print::text(b"too wide"),
        _ => later_word(number),
    }
}

// The others.
fn later_word(number: u8) {
    match number {
        7 => print::text(b"key clash"),
        8 => print::text(b"book full"),
        9 => print::text(b"already waiting"),
        10 => print::text(b"hall full"),
        11 => print::text(b"not waiting"),
        12 => print::text(b"no seats"),
        _ => print::text(b"no such game"),
    }
}

// `9 already waiting`
fn numbered(number: u8) {
    io::print_decimal(1, number as u64);
    print::text(b" ");
    word(number);
}

// `refused: 9 already waiting`, of a call that answers in numbers.
pub fn refused_by(number: u8) {
    print::text(b"refused: ");
    numbered(number);
    print::text(b"\n");
}

// The same of a refusal by name.
pub fn refused(refusal: Refusal) {
    refused_by(refusal.number());
}

// `accepted` where the number is 0, or the refusal.
pub fn answer(number: u8) {
    if number == 0 {
        print::text(b"accepted\n");
        return;
    }
    refused_by(number);
}

// The answer that stands beside a key: 0 accepted, or a refusal's number.
pub fn noted(answer: u8) {
    if answer == 0 {
        print::text(b"accepted");
        return;
    }
    numbered(answer);
}
