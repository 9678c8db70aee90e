// objectives, candidates, columns ids and ratings -> refusal, places
use crate::{candidates, columns, objectives, places, words};
use base::Refusal;
use candidates::ReadCandidates;
use objectives::ReadObjectives;
use words::Cursor;

pub fn replay(text: &[u8], inputs: Cursor) -> Cursor {
    let mut ids = [0u64; 129];
    let mut ratings = [0.0f64; 129];
    let listed = objectives::read(text, inputs);
    let brought = candidates::read(text, listed.cursor);
    let first = columns::numbers(text, brought.cursor, &mut ids);
    let second = columns::of_floats(text, first.cursor, &mut ratings);
    let n = first.len;
    let m = second.len;
    after_columns(
        text,
        second.cursor,
        listed,
        brought,
        &ids[..n],
        &ratings[..m],
    )
}

// Calls, unless a kind is unknown: that is refused as over limit.
fn after_columns(
    text: &[u8],
    from: Cursor,
    listed: ReadObjectives,
    brought: ReadCandidates,
    ids: &[u64],
    ratings: &[f64],
) -> Cursor {
    if !listed.known {
        return places::expect_refused(text, from, Refusal::OverLimit);
    }
    let kinds = listed.kinds;
    let weights = listed.weights;
    let candidates = brought.candidates;
    let given = selection::greedy::select(
        objectives::of_kinds(kinds, weights),
        listed.count,
        candidates,
        brought.count,
        ids,
        ratings,
    );
    places::expect(text, from, given)
}
