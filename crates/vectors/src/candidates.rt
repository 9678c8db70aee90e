// Candidates, as n and n matches.
ghost use Rattle.std.specs.Prelude.{◌≤◌};

use crate::{teams, words};
use matchmaker::{ProposedMatch, Team};
use words::Cursor;

// The first `count`, or none where `count` is above 64.
#[derive(Clone, Copy)]
pub struct ReadCandidates {
    pub candidates: [ProposedMatch; 64],
    pub count: usize,
    pub cursor: Cursor,
}

// Stands where nothing is read.
fn nothing() -> ProposedMatch {
    let nobody = Team {
        players: [0; 8],
        len: 0,
    };
    ProposedMatch {
        a: nobody,
        b: nobody,
    }
}

// n candidates.
fn listed(text: &[u8], from: Cursor, n: usize) -> ReadCandidates
    requires { n ≤ 64 }
{
    let mut candidates = [nothing(); 64];
    let mut cursor = from;
    for i in 0..n {
        let read = teams::proposed(text, cursor);
        let next = read.proposed;
        candidates[i] = next;
        cursor = read.cursor;
    }
    ReadCandidates {
        candidates,
        count: n,
        cursor,
    }
}

// Candidates, of which a number above 64 stands alone.
pub fn read(text: &[u8], from: Cursor) -> ReadCandidates {
    let len = words::next(text, from);
    let n = len.value as usize;
    let cursor = len.cursor;
    if 64 < n {
        return ReadCandidates {
            candidates: [nothing(); 64],
            count: n,
            cursor,
        };
    }
    listed(text, cursor, n)
}
