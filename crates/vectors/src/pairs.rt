// Pairs of regions that may meet, as n and n times first second.
ghost use Rattle.std.specs.Prelude.{◌≤◌};

use crate::words;
use constraint::regions;
use regions::{RegionConstraint, RegionPair};
use words::Cursor;

#[derive(Clone, Copy)]
struct ReadPair {
    pair: RegionPair,
    cursor: Cursor,
}

#[derive(Clone, Copy)]
pub struct ReadPairs {
    pub regions: RegionConstraint,
    pub cursor: Cursor,
}

// A pair of words below 256.
fn pair(text: &[u8], from: Cursor) -> ReadPair {
    let first = words::next(text, from);
    let second = words::next(text, first.cursor);
    let fits = first.value < 256 && second.value < 256;
    let pair = RegionPair {
        first: words::low_byte(first.value),
        second: words::low_byte(second.value),
    };
    let cursor = words::checked(second.cursor, fits);
    ReadPair { pair, cursor }
}

// Stands where nothing is read.
fn nothing() -> RegionPair {
    RegionPair {
        first: 0,
        second: 0,
    }
}

// n pairs.
fn listed(text: &[u8], from: Cursor, n: usize) -> ReadPairs
    requires { n ≤ 16 }
{
    let mut pairs = [nothing(); 16];
    let mut cursor = from;
    for i in 0..n {
        let read = pair(text, cursor);
        let next = read.pair;
        pairs[i] = next;
        cursor = read.cursor;
    }
    ReadPairs {
        regions: RegionConstraint { pairs, count: n },
        cursor,
    }
}

// Pairs, of which a number above 16 stands alone.
pub fn read(text: &[u8], from: Cursor) -> ReadPairs {
    let len = words::next(text, from);
    let n = len.value as usize;
    let cursor = len.cursor;
    if 16 < n {
        return ReadPairs {
            regions: RegionConstraint {
                pairs: [nothing(); 16],
                count: n,
            },
            cursor,
        };
    }
    listed(text, cursor, n)
}
