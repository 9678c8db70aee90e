// match, columns ids and ratings -> refusal, value
use crate::{columns, scores, teams, words};
use words::Cursor;

pub fn replay(text: &[u8], inputs: Cursor) -> Cursor {
    let mut ids = [0u64; 129];
    let mut ratings = [0.0f64; 129];
    let teams = teams::proposed(text, inputs);
    let first = columns::numbers(text, teams.cursor, &mut ids);
    let second = columns::of_floats(text, first.cursor, &mut ratings);
    let n = first.len;
    let m = second.len;
    let proposed = teams.proposed;
    let given = proposed.match_quality(&ids[..n], &ratings[..m]);
    scores::expect(text, second.cursor, given)
}
