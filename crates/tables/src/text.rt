// What the program writes.
use crate::calls;
use calls::Answer;

pub fn say(words: &[u8]) {
    io::write_all(1, words);
}

pub fn number(n: u64) {
    io::print_decimal(1, n);
}

// Two digits.
fn two_digits(n: u64) {
    if n < 10 {
        say(b"0");
    }
    number(n);
}

// The hundredths of a number from 0.0 on, at most 100.
fn hundredths(x: f64) -> u64 {
    for n in 0..100 {
        if x < std::num::nearest_u64_to_f64(n + 1) / 100.0 {
            return n;
        }
    }
    100
}

// A quality to two places.
pub fn quality(x: f64) {
    let n = hundredths(x);
    number(n / 100);
    say(b".");
    two_digits(n % 100);
}

// `2+1`
pub fn sizes(a: usize, b: usize) {
    number(a as u64);
    say(b"+");
    number(b as u64);
}

// `game 1, 2+1`
pub fn game(number_of: u8, a: usize, b: usize) {
    say(b"game ");
    number(number_of as u64);
    say(b", ");
    sizes(a, b);
}

pub fn refusal(n: u8) {
    if n == 0 {
        say(b"accepted");
        return;
    }
    say(b"refusal ");
    number(n as u64);
}

// The guests from a place of the sheet up to another.
fn guests(players: &[u64; 64], from: usize, to: usize) {
    for i in 0..64 {
        if from <= i && i < to {
            say(b" ");
            number(players[i]);
        }
    }
}

// One match, whose guests stand from a place on.
fn teams(players: &[u64; 64], from: usize, a: usize, b: usize) {
    let middle = std::num::wrapping_add_usize(from, a);
    say(b"; A");
    guests(players, from, middle);
    say(b", B");
    guests(players, middle, std::num::wrapping_add_usize(middle, b));
}

// The first n matches of the sheet.
fn matches(players: &[u64; 64], n: usize, a: usize, b: usize) {
    let each = std::num::wrapping_add_usize(a, b);
    let mut at: usize = 0;
    for i in 0..n {
        teams(players, at, a, b);
        at = std::num::wrapping_add_usize(at, each);
    }
}

// How many matches, or the refusal.
pub fn count(answer: Answer) {
    if answer.refusal != 0 {
        refusal(answer.refusal);
        return;
    }
    number(answer.matches as u64);
    say(b" formed");
}

// How many matches, and which, or the refusal.
pub fn handed(answer: Answer, players: &[u64; 64], a: usize, b: usize) {
    count(answer);
    matches(players, answer.matches, a, b);
}
