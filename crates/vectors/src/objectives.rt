// Soft objectives, as k and k times kind weight. An array of enums is no field of a struct: they are read as kinds and weights.
ghost use Rattle.std.specs.Prelude.{◌≤◌};

use crate::words;
use objective::soft;
use soft::SoftObjective;
use words::Cursor;

// The first `count`, and whether all their kinds are known.
#[derive(Clone, Copy)]
pub struct ReadObjectives {
    pub kinds: [u64; 8],
    pub weights: [f64; 8],
    pub count: usize,
    pub known: bool,
    pub cursor: Cursor,
}

// n objectives. A kind is below 256, and known below 3.
fn listed(text: &[u8], from: Cursor, n: usize) -> ReadObjectives
    requires { n ≤ 8 }
{
    let mut kinds = [0u64; 8];
    let mut weights = [0.0f64; 8];
    let mut known = true;
    let mut cursor = from;
    for i in 0..n {
        let kind = words::next(text, cursor);
        let weight = words::next(text, kind.cursor);
        kinds[i] = kind.value;
        weights[i] = base::from_bits(weight.value);
        known = known && kind.value < 3;
        cursor = words::checked(weight.cursor, kind.value < 256);
    }
    ReadObjectives {
        kinds,
        weights,
        count: n,
        known,
        cursor,
    }
}

// A list, which fails where it is longer than 8.
pub fn read(text: &[u8], from: Cursor) -> ReadObjectives {
    let len = words::next(text, from);
    let n = len.value as usize;
    let cursor = len.cursor;
    if 8 < n {
        return listed(text, words::checked(cursor, false), 0);
    }
    listed(text, cursor, n)
}

// Kind 0 is skill, 1 latency, 2 wait.
fn objective(kind: u64, weight: f64) -> SoftObjective {
    match kind {
        0 => SoftObjective::Skill(weight),
        1 => SoftObjective::Latency(weight),
        _ => SoftObjective::Wait(weight),
    }
}

// All eight, as objectives.
pub fn of_kinds(kinds: [u64; 8], weights: [f64; 8]) -> [SoftObjective; 8] {
    let mut out = [SoftObjective::Wait(0.0); 8];
    for i in 0..8 {
        out[i] = objective(kinds[i], weights[i]);
    }
    out
}
