// A word as a value of its kind.
use crate::numbers;
use crate::numbers::Problem;
use check::same;

#[derive(Clone, Copy)]
pub enum Kind {
    // A whole number up to this limit.
    Whole(u64),
    Decimal,
    Time,
    Region,
}

// A whole number, a time or a region's code in `whole`, a decimal number in `real`.
#[derive(Clone, Copy)]
pub struct Value {
    pub whole: u64,
    pub real: f64,
    pub problem: Problem,
}

// Document 01's codes; 4 is no player record, 5 no region.
fn region_code(word: &[u8]) -> u64 {
    if same(word, b"NA") {
        return 0;
    }
    if same(word, b"EU") {
        return 1;
    }
    if same(word, b"Asia") {
        return 2;
    }
    if same(word, b"Other") {
        return 3;
    }
    if same(word, b"none") {
        return 4;
    }
    5
}

fn of_whole(read: numbers::ReadWhole) -> Value {
    let problem = read.problem;
    Value {
        whole: read.value,
        real: 0.0,
        problem,
    }
}

fn of_decimal(read: numbers::ReadDecimal) -> Value {
    let problem = read.problem;
    Value {
        whole: 0,
        real: read.value,
        problem,
    }
}

pub fn region(word: &[u8]) -> Value {
    let code = region_code(word);
    if 4 < code {
        return Value {
            whole: 4,
            real: 0.0,
            problem: Problem::Malformed,
        };
    }
    Value {
        whole: code,
        real: 0.0,
        problem: Problem::Nothing,
    }
}

pub fn read(kind: Kind, word: &[u8]) -> Value {
    match kind {
        Kind::Whole(limit) => of_whole(numbers::whole(word, limit)),
        Kind::Decimal => of_decimal(numbers::decimal(word)),
        Kind::Time => of_whole(numbers::time(word)),
        Kind::Region => region(word),
    }
}

// Two team sizes, as 5+5.
#[derive(Clone, Copy)]
pub struct ReadSizes {
    pub a: u64,
    pub b: u64,
    pub problem: Problem,
}

fn bad_sizes(problem: Problem) -> ReadSizes {
    ReadSizes {
        a: 0,
        b: 0,
        problem,
    }
}

pub fn sizes(word: &[u8]) -> ReadSizes {
    let n = word.len();
    let plus = crate::words::place_of(word, 0, b'+');
    let a = numbers::whole(crate::words::part(word, 0, plus), u64::MAX);
    let b = numbers::whole(
        crate::words::part(word, std::num::wrapping_add_usize(plus, 1), n),
        u64::MAX,
    );
    let first = a.problem;
    let second = b.problem;
    let Problem::Nothing = first else {
        return bad_sizes(first);
    };
    ReadSizes {
        a: a.value,
        b: b.value,
        problem: second,
    }
}
