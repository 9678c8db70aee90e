// What full rounds rank the choices by, kept as the hall takes it.
use crate::numbers::Problem;
use crate::words::Heard;
use crate::{complaints, fields, numbers, print, refusals, words};
use base::Refusal;
use capi::scores::SoftObjectives;
use check::same;

pub fn none() -> SoftObjectives {
    SoftObjectives {
        kinds: [0; 8],
        weights: [0.0; 8],
        len: 0,
    }
}

fn with(goals: SoftObjectives, kind: u8, weight: f64) -> SoftObjectives {
    let n = goals.len;
    let mut next = goals;
    if n < 8 {
        next.kinds[n] = kind;
        next.weights[n] = weight;
        next.len = n + 1;
    }
    next
}

// The kind of a name: 0 skill, 1 latency, 2 wait, 3 any other.
fn kind_of(name: &[u8]) -> u8 {
    if same(name, b"skill") {
        return 0;
    }
    if same(name, b"latency") {
        return 1;
    }
    if same(name, b"wait") {
        return 2;
    }
    3
}

// `goal skill 1`: one goal more.
pub fn goal(goals: SoftObjectives, text: &[u8], heard: Heard) -> SoftObjectives {
    let name = words::next(text, heard.behind());
    let kind = kind_of(words::bytes_of(text, name));
    if 2 < kind {
        complaints::word(text, heard, b"skill, latency or wait", name);
        return goals;
    }
    let weight = words::next(text, name.to);
    let read = numbers::decimal(words::bytes_of(text, weight));
    let problem = read.problem;
    let Problem::Nothing = problem else {
        complaints::value(
            text,
            heard,
            crate::values::Kind::Decimal,
            problem,
            name,
            weight,
        );
        return goals;
    };
    if !fields::end(text, heard, weight.to) {
        return goals;
    }
    add(goals, kind, read.value)
}

fn add(goals: SoftObjectives, kind: u8, weight: f64) -> SoftObjectives {
    if 8 <= goals.len {
        refusals::refused(Refusal::OverLimit);
        return goals;
    }
    print::text(b"goal set\n");
    with(goals, kind, weight)
}

// `goals` lists them, `goals none` drops them.
pub fn listed(goals: SoftObjectives, text: &[u8], heard: Heard) -> SoftObjectives {
    let word = words::next(text, heard.behind());
    if same(words::bytes_of(text, word), b"none") {
        if !fields::end(text, heard, word.to) {
            return goals;
        }
        print::text(b"no goals\n");
        return none();
    }
    if word.is_end() {
        list(goals);
        return goals;
    }
    complaints::word(text, heard, b"none or nothing more", word);
    goals
}

fn name(kind: u8) {
    match kind {
        0 => print::text(b"skill"),
        1 => print::text(b"latency"),
        _ => print::text(b"wait"),
    }
}

// `goal skill 1.0000`
fn line(kind: u8, weight: f64) {
    print::text(b"goal ");
    name(kind);
    print::text(b" ");
    print::real(weight, 4, 0);
    print::text(b"\n");
}

fn list(goals: SoftObjectives) {
    let kinds = goals.kinds;
    let weights = goals.weights;
    let n = goals.len;
    if n == 0 {
        print::text(b"no goals\n");
    }
    for i in 0..n.min(8) {
        line(kinds[i], weights[i]);
    }
}
