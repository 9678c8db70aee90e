// objectives, match, columns ids and ratings -> refusal, value
use crate::{columns, objectives, scores, teams, words};
use base::Refusal;
use objective::soft;
use words::Cursor;

pub fn replay(text: &[u8], inputs: Cursor) -> Cursor {
    let mut ids = [0u64; 129];
    let mut ratings = [0.0f64; 129];
    let listed = objectives::read(text, inputs);
    let teams = teams::proposed(text, listed.cursor);
    let first = columns::numbers(text, teams.cursor, &mut ids);
    let second = columns::of_floats(text, first.cursor, &mut ratings);
    let n = first.len;
    let m = second.len;
    if !listed.known {
        return scores::expect_refused(text, second.cursor, Refusal::OverLimit);
    }
    let kinds = listed.kinds;
    let weights = listed.weights;
    let given = soft::soft_score(
        objectives::of_kinds(kinds, weights),
        listed.count,
        teams.proposed,
        &ids[..n],
        &ratings[..m],
    );
    scores::expect(text, second.cursor, given)
}
