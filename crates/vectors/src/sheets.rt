// What searches and generators bring and leave. Sizes, as a b. Sheets, as the number of places lent for players and for qualities:
// place i holds player i + 1000 beforehand, and every quality is -1.0. Matches, as k and k players, then c and c qualities: these
// have to stand on the sheets, and behind them what stood there before.
ghost use Rattle.base.specs.Sheets.{Counts};

use crate::{floats, lists, refusals, words};
use base::Refusal;
use lists::Listed;
use seating::TeamComposition;
use words::Cursor;

#[derive(Clone, Copy)]
pub struct ReadSizes {
    pub sizes: TeamComposition,
    pub cursor: Cursor,
}

pub fn sizes(text: &[u8], from: Cursor) -> ReadSizes {
    let a = words::next(text, from);
    let b = words::next(text, a.cursor);
    let sizes = TeamComposition {
        a: a.value as usize,
        b: b.value as usize,
    };
    let cursor = b.cursor;
    ReadSizes { sizes, cursor }
}

// What a place for a player holds before a call.
fn before(place: usize) -> u64 {
    std::num::wrapping_add_u64(1000, place as u64)
}

// How many places are lent for players; they are filled.
pub fn players(text: &[u8], from: Cursor, out: &mut [u64]) -> Listed
    ensures { Counts result.len out.new }
{
    let listed = lists::size(text, from, out.len());
    let n = listed.len;
    for i in 0..n {
        out[i] = before(i);
    }
    listed
}

// How many places are lent for qualities; they are filled.
pub fn qualities(text: &[u8], from: Cursor, out: &mut [f64]) -> Listed
    ensures { Counts result.len out.new }
{
    let listed = lists::size(text, from, out.len());
    let n = listed.len;
    for i in 0..n {
        out[i] = -1.0;
    }
    listed
}

// One of `written` places has to hold the next word, any other what it held before.
fn expect_player(text: &[u8], from: Cursor, player: u64, place: usize, written: u64) -> Cursor {
    if (place as u64) < written {
        return words::expect(text, from, player);
    }
    words::checked(from, player == before(place))
}

fn expect_quality(text: &[u8], from: Cursor, quality: f64, place: usize, written: u64) -> Cursor {
    if (place as u64) < written {
        return floats::expect(text, from, quality);
    }
    words::checked(from, quality == -1.0)
}

fn expect_players(text: &[u8], from: Cursor, sheet: &[u64]) -> Cursor {
    let written = words::next(text, from);
    let mut cursor = written.cursor;
    for i in 0..sheet.len() {
        cursor = expect_player(text, cursor, sheet[i], i, written.value);
    }
    cursor
}

fn expect_qualities(text: &[u8], from: Cursor, sheet: &[f64], count: u64) -> Cursor {
    let mut cursor = words::expect(text, from, count);
    for i in 0..sheet.len() {
        cursor = expect_quality(text, cursor, sheet[i], i, count);
    }
    cursor
}

// Past the next words, which have to be the answer and what the sheets hold.
pub fn expect(
    text: &[u8],
    from: Cursor,
    given: Result<usize, Refusal>,
    players: &[u64],
    qualities: &[f64],
) -> Cursor {
    let refusal = words::expect(text, from, refused(given));
    let seated = expect_players(text, refusal, players);
    expect_qualities(text, seated, qualities, count(given))
}

// The number of the refusal, 0 for none.
fn refused(given: Result<usize, Refusal>) -> u64 {
    match given {
        Err(refusal) => refusals::number(refusal),
        Ok(_) => 0,
    }
}

fn count(given: Result<usize, Refusal>) -> u64 {
    given.unwrap_or(0) as u64
}
