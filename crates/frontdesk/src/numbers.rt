// Numbers and times in plain digits. Exponents, nan and inf are no numbers here.
use crate::words;

// What the digits of a word say.
#[derive(Clone, Copy)]
pub struct Digits {
    // All digits, as if there were no point.
    pub value: u64,
    // How many.
    pub count: usize,
    // 1, times 10 for each digit behind the point.
    pub scale: u64,
    pub pointed: bool,
    // Is a byte no digit and no first point?
    pub spoiled: bool,
    // Are there more digits than fit?
    pub over: bool,
}

// Why a word is no value, if it is none.
#[derive(Clone, Copy)]
pub enum Problem {
    Nothing,
    Malformed,
    Over(u64),
    Long,
}

#[derive(Clone, Copy)]
pub struct ReadWhole {
    pub value: u64,
    pub problem: Problem,
}

#[derive(Clone, Copy)]
pub struct ReadDecimal {
    pub value: f64,
    pub problem: Problem,
}

// The value of a decimal digit, 10 for any other byte.
fn digit(b: u8) -> u64 {
    match b {
        b'0'..=b'9' => (b - b'0') as u64,
        _ => 10,
    }
}

impl Digits {
    fn none() -> Digits {
        Digits {
            value: 0,
            count: 0,
            scale: 1,
            pointed: false,
            spoiled: false,
            over: false,
        }
    }

    fn with_point(self) -> Digits {
        let mut next = self;
        next.spoiled = self.spoiled || self.pointed;
        next.pointed = true;
        next
    }

    // The scale where one digit more follows.
    fn next_scale(self) -> u64 {
        if !self.pointed {
            return self.scale;
        }
        if 100000000000000000 < self.scale {
            return self.scale;
        }
        self.scale * 10
    }

    fn too_many(self) -> Digits {
        let mut next = self;
        next.over = true;
        next
    }

    // One digit more, from 0 to 9.
    fn with_digit(self, d: u64) -> Digits {
        let mut next = self;
        let value = self.value;
        next.count = std::num::wrapping_add_usize(self.count, 1);
        if 1844674407370955161 < value {
            return next.too_many();
        }
        let tens = value * 10;
        if u64::MAX - tens < d {
            return next.too_many();
        }
        next.value = tens + d;
        next.scale = self.next_scale();
        next
    }

    // One byte more.
    fn with(self, b: u8) -> Digits {
        if b == b'.' {
            return self.with_point();
        }
        let d = digit(b);
        if 9 < d {
            let mut next = self;
            next.spoiled = true;
            return next;
        }
        self.with_digit(d)
    }

    // Is it no number?
    fn is_malformed(self) -> bool {
        if self.count == 0 {
            return true;
        }
        self.spoiled
    }
}

// The digits of a word.
fn digits_of(word: &[u8]) -> Digits {
    let mut read = Digits::none();
    for i in 0..word.len() {
        read = read.with(word[i]);
    }
    read
}

fn bad_whole(problem: Problem) -> ReadWhole {
    ReadWhole { value: 0, problem }
}

// A whole number up to `limit`.
pub fn whole(word: &[u8], limit: u64) -> ReadWhole {
    let read = digits_of(word);
    if read.is_malformed() {
        return bad_whole(Problem::Malformed);
    }
    if read.pointed {
        return bad_whole(Problem::Malformed);
    }
    if read.over {
        return bad_whole(Problem::Over(limit));
    }
    if limit < read.value {
        return bad_whole(Problem::Over(limit));
    }
    ReadWhole {
        value: read.value,
        problem: Problem::Nothing,
    }
}

// Why the digits are no decimal number of up to 15 digits. Below 10^15 all are floats without rounding.
fn decimal_problem(read: Digits) -> Problem {
    if read.is_malformed() {
        return Problem::Malformed;
    }
    if 15 < read.count {
        return Problem::Long;
    }
    Problem::Nothing
}

// Rounded once, by the division.
fn unsigned(read: Digits) -> f64 {
    std::num::nearest_u64_to_f64(read.value) / std::num::nearest_u64_to_f64(read.scale)
}

fn starts_with_minus(word: &[u8]) -> bool {
    if word.len() == 0 {
        return false;
    }
    word[0] == b'-'
}

// A decimal number, with a minus or without. -0 is the other zero, since a key stands for a rating's bits.
pub fn decimal(word: &[u8]) -> ReadDecimal {
    if starts_with_minus(word) {
        let read = digits_of(words::part(word, 1, word.len()));
        let size = unsigned(read);
        return ReadDecimal {
            value: -size,
            problem: decimal_problem(read),
        };
    }
    let read = digits_of(word);
    ReadDecimal {
        value: unsigned(read),
        problem: decimal_problem(read),
    }
}

// Does the word end in this byte, and is there more of it?
fn ends_in(word: &[u8], b: u8) -> bool {
    let n = word.len();
    if n < 2 {
        return false;
    }
    word[n - 1] == b
}

// The word without its last byte.
fn without_last(word: &[u8]) -> &[u8] {
    let n = word.len();
    if n == 0 {
        return &word[..0];
    }
    words::part(word, 0, n - 1)
}

// A time in nanoseconds: 90s, 1.5s, 90 or 90000000000ns.
pub fn time(word: &[u8]) -> ReadWhole {
    if !ends_in(word, b's') {
        return seconds(word);
    }
    let shorter = without_last(word);
    if ends_in(shorter, b'n') {
        return whole(without_last(shorter), u64::MAX);
    }
    seconds(shorter)
}

// Seconds with up to nine digits behind the point, in nanoseconds.
fn seconds(word: &[u8]) -> ReadWhole {
    let read = digits_of(word);
    if read.is_malformed() {
        return bad_whole(Problem::Malformed);
    }
    if read.over {
        return bad_whole(Problem::Over(u64::MAX));
    }
    in_nanos(read.value, read.scale)
}

// In nanoseconds. The scale is 1, 10 and so on.
fn in_nanos(value: u64, scale: u64) -> ReadWhole {
    if scale == 0 {
        return bad_whole(Problem::Malformed);
    }
    if 1000000000 < scale {
        return bad_whole(Problem::Malformed);
    }
    let seconds = value / scale;
    if 18446744073 < seconds {
        return bad_whole(Problem::Over(u64::MAX));
    }
    let nanos = seconds * 1000000000;
    let rest = fraction(value, scale);
    if u64::MAX - nanos < rest {
        return bad_whole(Problem::Over(u64::MAX));
    }
    ReadWhole {
        value: nanos + rest,
        problem: Problem::Nothing,
    }
}

// What stands behind the point, in nanoseconds.
fn fraction(value: u64, scale: u64) -> u64 {
    if scale == 0 {
        return 0;
    }
    value % scale * (1000000000 / scale)
}
