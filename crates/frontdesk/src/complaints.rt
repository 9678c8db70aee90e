// What is said to a line that cannot be served: its number, what was expected and what was found, on one line.
use crate::numbers::Problem;
use crate::values::Kind;
use crate::words::{Heard, Word};
use crate::{fields, print, words};

// `line 12: `
fn line(number: u64) {
    print::text(b"line ");
    io::print_decimal(1, number);
    print::text(b": ");
}

// A byte as it is shown: ? for what is not printable ASCII.
fn printable(b: u8) -> u8 {
    match b {
        b' '..=b'~' => b,
        _ => b'?',
    }
}

// The first 24 bytes of a word.
fn shown(word: &[u8]) {
    for i in 0..word.len() {
        if 23 < i {
            return;
        }
        print::byte(printable(word[i]));
    }
}

// `, found 'abc'`
fn found(text: &[u8], word: Word) {
    if word.is_end() {
        print::text(b", found the end of the line\n");
        return;
    }
    print::text(b", found '");
    shown(words::bytes_of(text, word));
    print::text(b"'\n");
}

fn kind(kind: Kind) {
    match kind {
        Kind::Whole(limit) => print::text(b"a whole number"),
        Kind::Decimal => print::text(b"a number"),
        Kind::Time => print::text(b"a time such as 90s or 1.5s"),
        Kind::Region => print::text(b"NA, EU, Asia, Other or none"),
    }
}

// `at most 4294967295`; times in nanoseconds.
fn at_most(limit: u64, wanted: Kind) {
    print::text(b"at most ");
    io::print_decimal(1, limit);
    if let Kind::Time = wanted {
        print::text(b"ns");
    }
}

// What a word should have been.
fn expected(wanted: Kind, problem: Problem) {
    print::text(b"expected ");
    match problem {
        Problem::Over(limit) => at_most(limit, wanted),
        Problem::Long => print::text(b"at most 15 digits"),
        Problem::Malformed => kind(wanted),
        Problem::Nothing => kind(wanted),
    }
}

// The value of a field.
pub fn value(text: &[u8], heard: Heard, kind: Kind, problem: Problem, name: Word, word: Word) {
    line(heard.number);
    expected(kind, problem);
    print::text(b" for ");
    shown(words::bytes_of(text, name));
    found(text, word);
}

// A word that has no name of its own.
pub fn word(text: &[u8], heard: Heard, wanted: &[u8], word: Word) {
    line(heard.number);
    print::text(b"expected ");
    print::text(wanted);
    found(text, word);
}

// A word that is none of the fields.
pub fn no_field(text: &[u8], heard: Heard, name: Word, allowed: u32) {
    line(heard.number);
    if allowed == 0 {
        print::text(b"expected nothing more after ");
    } else {
        print::text(b"expected a field of ");
    }
    shown(words::bytes_of(text, heard.command));
    found(text, name);
}

pub fn twice(text: &[u8], heard: Heard, name: Word) {
    line(heard.number);
    shown(words::bytes_of(text, name));
    print::text(b" is given twice\n");
}

pub fn needs(text: &[u8], heard: Heard, field: u32) {
    line(heard.number);
    shown(words::bytes_of(text, heard.command));
    print::text(b" needs ");
    needed(field);
    print::text(b"\n");
}

fn needed(field: u32) {
    match field {
        fields::KEY => print::text(b"key"),
        fields::GUEST => print::text(b"guest"),
        fields::JOINED => print::text(b"joined"),
        fields::ROLE => print::text(b"role"),
        _ => print::text(b"at"),
    }
}

// No rating is given for a guest who has no row to take it from.
pub fn needs_rating(text: &[u8], heard: Heard, guest: u64) {
    line(heard.number);
    shown(words::bytes_of(text, heard.command));
    print::text(b" needs rating: guest ");
    io::print_decimal(1, guest);
    print::text(b" has no roster row\n");
}

// A call of a hall that has no games yet.
pub fn not_open(heard: Heard) {
    line(heard.number);
    print::text(
        b"the hall is not open yet; open it with the sizes of its games, as in: open 5+5 2+2\n",
    );
}

pub fn open_already(heard: Heard) {
    line(heard.number);
    print::text(b"the hall is open already, and its games stay as they are\n");
}

pub fn unknown(text: &[u8], heard: Heard) {
    line(heard.number);
    print::text(b"unknown command '");
    shown(words::bytes_of(text, heard.command));
    print::text(b"'; try help\n");
}

pub fn too_long(number: u64) {
    line(number);
    print::text(b"longer than 256 bytes, not read\n");
}

pub fn cut_short(number: u64) {
    line(number);
    print::text(b"the input ended before the line did; not served\n");
}
