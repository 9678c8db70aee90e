// Chosen places, as refusal n and n places. There are none where it is refused.
ghost use Rattle.std.specs.Prelude.{◌≤◌};

use crate::{refusals, words};
use base::Refusal;
use selection::Selected;
use words::Cursor;

fn expect_places(text: &[u8], from: Cursor, places: [usize; 64], n: usize) -> Cursor
    requires { n ≤ 64 }
{
    let mut cursor = from;
    for i in 0..n {
        cursor = words::expect(text, cursor, places[i] as u64);
    }
    cursor
}

pub fn expect_refused(text: &[u8], from: Cursor, refusal: Refusal) -> Cursor {
    words::expect_both(text, from, refusals::number(refusal), 0)
}

pub fn expect(text: &[u8], from: Cursor, given: Selected) -> Cursor {
    let n = given.count;
    let places = given.places;
    let answer = given.answer;
    let refusal = refusals::answered(answer);
    let cursor = words::expect_both(text, from, refusal, n as u64);
    if 64 < n {
        return words::checked(cursor, false);
    }
    expect_places(text, cursor, places, n)
}
