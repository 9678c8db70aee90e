// Teams, as n and n players, and matches, as two teams.
ghost use Rattle.std.specs.Prelude.{◌≤◌};

use crate::{lists, words};
use matchmaker::{ProposedMatch, Team};
use words::Cursor;

#[derive(Clone, Copy)]
pub struct ReadTeam {
    pub team: Team,
    pub cursor: Cursor,
}

#[derive(Clone, Copy)]
pub struct ReadMatch {
    pub proposed: ProposedMatch,
    pub cursor: Cursor,
}

// A team, of which a length above 8 stands alone.
pub fn team(text: &[u8], from: Cursor) -> ReadTeam {
    let mut players = [0u64; 8];
    let len = words::next(text, from);
    let n = len.value as usize;
    let cursor = len.cursor;
    if 8 < n {
        return ReadTeam {
            team: Team { players, len: n },
            cursor,
        };
    }
    let listed = lists::numbers(text, from, &mut players);
    let end = listed.cursor;
    ReadTeam {
        team: Team { players, len: n },
        cursor: end,
    }
}

pub fn proposed(text: &[u8], from: Cursor) -> ReadMatch {
    let first = team(text, from);
    let second = team(text, first.cursor);
    let a = first.team;
    let b = second.team;
    let cursor = second.cursor;
    ReadMatch {
        proposed: ProposedMatch { a: a, b: b },
        cursor,
    }
}

fn expect_players(text: &[u8], from: Cursor, players: [u64; 8], n: usize) -> Cursor
    requires { n ≤ 8 }
{
    let mut cursor = from;
    for i in 0..n {
        cursor = words::expect(text, cursor, players[i]);
    }
    cursor
}

fn expect_team(text: &[u8], from: Cursor, team: Team) -> Cursor {
    let n = team.len;
    let players = team.players;
    let cursor = words::expect(text, from, n as u64);
    if 8 < n {
        return words::checked(cursor, false);
    }
    expect_players(text, cursor, players, n)
}

// Past the next words, which have to be the match.
pub fn expect(text: &[u8], from: Cursor, proposed: ProposedMatch) -> Cursor {
    let a = proposed.a;
    let b = proposed.b;
    let cursor = expect_team(text, from, a);
    expect_team(text, cursor, b)
}
